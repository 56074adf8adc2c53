// Bytes written into the log, in memory that is reserved: no call here can fail.
ghost use Rattle.std.specs.Prelude.{◌≡◌, ◌+◌, ◌-◌, ◌≤◌, ◌++◌, length, replicate, vec_len, vec_capacity};
ghost use Rattle.std.specs.List.{slice_range};
ghost use Rattle.std.proofs.Math.Seq.{paste};

// Bytes written over what stands at a place.
pub fn overwrite(log: &mut Vec<u8>, at: usize, bytes: &[u8])
    requires { at + length bytes.now ≤ vec_len log.old }
    ensures items { log.new.items ≡ paste log.old.items at bytes.now (length bytes.now) }
    ensures len { vec_len log.new ≡ vec_len log.old }
    ensures capacity { vec_capacity log.new ≡ vec_capacity log.old }
{
    log[at..at + bytes.len()].copy_from_slice(bytes);
}

// Bytes written behind all others.
pub fn append(log: &mut Vec<u8>, bytes: &[u8])
    requires { vec_len log.old + length bytes.now ≤ vec_capacity log.old }
    ensures items { log.new.items ≡ log.old.items ++ bytes.now }
    ensures capacity { vec_capacity log.old ≤ vec_capacity log.new }
{
    log.extend_from_slice(bytes).unwrap();
}

// Bytes copied behind all others, with zeros up to a length.
pub fn copy_behind(log: &mut Vec<u8>, from: usize, n: usize, len: usize)
    requires within { from + n ≤ vec_len log.old }
    requires short { n ≤ len }
    requires free { vec_len log.old + len ≤ vec_capacity log.old }
    ensures items { log.new.items ≡ log.old.items ++ (slice_range log.old.items from (from + n) ++ replicate (len - n) 0) }
    ensures capacity { vec_capacity log.old ≤ vec_capacity log.new }
{
    let at = log.len();
    // not `extend_from_within`: it pushes byte after byte, and took up to three times as long
    log.resize(at + len, 0).unwrap();
    log.copy_within(from..from + n, at);
}
