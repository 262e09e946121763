//! The words of the command line, after the program's name.
ghost use Rattle.std.specs.Prelude.{◌≤◌, IfSome};
ghost use Rattle.sn_model.specs.Ranges.{IsWithin};
ghost use Rattle.sn_model.specs.declared.run.TheConstants.{LONGEST_QUEUE};

use sn_model::LONGEST_QUEUE;

/// The most entries that are passed.
const MOST: u32 = 16_777_216;

/// What the entries pass through.
#[derive(Clone, Copy)]
pub enum Way {
    Stream,
    Queue,
}

/// What is asked for.
#[derive(Clone, Copy)]
pub struct Command {
    pub way: Way,
    /// For how many entries there is room.
    pub capacity: u32,
    /// How many items there are.
    pub count: u32,
    pub ghost some_room: { IsWithin capacity LONGEST_QUEUE },
}

impl Command {
    pub fn read(words: &[String]) -> Option<Command> {
        let [way, capacity, count] = words else {
            return None;
        };
        let way = match way.as_str() {
            "stream" => Way::Stream,
            "queue" => Way::Queue,
            _ => return None,
        };
        let capacity = capacity.as_str().parse::<u32>().ok()?;
        let count = count.as_str().parse::<u32>().ok()?;
        if capacity < 1 || capacity > LONGEST_QUEUE || count > MOST {
            return None;
        }
        Some(Command {
            way,
            capacity,
            count,
        })
    }
}
