// What house and desks do alike at what a line says.
ghost use Rattle.std.specs.Prelude.{◌≡◌};
ghost use Rattle.interim.specs.Alike.{shown_after};
ghost use Rattle.lines.specs.Views.{event_of};

use crate::clock::MonotonicClock;
use console::Console;
use lines::scratch::Event;
use printing::print::write_sync;
use std::io;

// The clock is set, and the word of a sync said again. Messages are passed over, and no beat has anything to do, since no session is built yet.
pub fn handle(clock: &mut MonotonicClock, event: Event<'_>, console: &mut Console) -> io::Result<()>
    ensures { clock.new ≡ shown_after (event_of event.entry) clock.old }
{
    match event {
        Event::Clock(time) => clock.set(time).or_else(|error| console.report(error)),
        Event::Sync(word) => {
            let _ = write_sync(&mut console.text, word);
            console.say()
        }
        _ => Ok(()),
    }
}
