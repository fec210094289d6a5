//! The raises upwards that an act asked for.

ghost use Rattle.std.specs.Prelude.{◌≡◌, ◌++◌, OnOk};
ghost use Rattle.std.specs.List.{All};
ghost use Rattle.spin_host.specs.Levels.{up_in, ups_in, IsUpward};

use spin_objects::Item;
use spin_values::{Args, NoMemory, Sequence};

/// A raise upwards that is still to be opened.
#[derive(Drop, Debug)]
pub struct Upward {
    /// The number of the event.
    pub event: u8,
    /// Its arguments.
    pub args: Args,
}

// Keeps an item that is a raise upwards of an event after this one, of so many.
fn keep_up(event: u8, events: u8, item: &Item, ups: &mut Sequence<Upward>) -> Result<(), NoMemory>
    requires { All (IsUpward event events) ups.old }
    ensures kept { OnOk result (ups.new ≡ ups.old ++ up_in event events item.now) }
    ensures rise { OnOk result (All (IsUpward event events) ups.new) }
{
    if let Item::Up { event: to, args } = item {
        if event < *to && *to < events {
            ups.push(Upward {
                event: *to,
                args: args.copy()?,
            })?;
        }
    }
    Ok(())
}

// Keeps the raises upwards among what an act gave, in order: those of an event after this one, of so many.
pub(crate) fn keep_ups(
    event: u8,
    events: u8,
    given: &[Item],
    ups: &mut Sequence<Upward>,
) -> Result<(), NoMemory>
    requires { All (IsUpward event events) ups.old }
    ensures kept { OnOk result (ups.new ≡ ups.old ++ ups_in event events given.now) }
    ensures rise { OnOk result (All (IsUpward event events) ups.new) }
{
    for item in given {
        keep_up(event, events, item, ups)?;
    }
    Ok(())
}
