/// Which event is next.
#[derive(Clone, Copy)]
pub enum Order {
    /// What `next_event` says. A call is answered as soon as it is begun.
    Next,
    /// A call is answered where nothing else may happen, the oldest alone.
    Late,
    /// All calls are answered where nothing else may happen, from the last that was begun to the first.
    Reverse,
    /// Any event that may happen, by chance.
    Shuffled,
}

/// Which node takes the next turn.
#[derive(Clone, Copy)]
pub enum Turns {
    /// One after the other, and new ones behind all others.
    Forward,
    /// The same from the last to the first.
    Backward,
    /// Any, by chance.
    Shuffled,
}

/// By which engine a run goes on, and in which order.
#[derive(Clone, Copy)]
pub enum Way {
    Events(Order),
    Turns(Turns),
}

impl Way {
    pub fn named(name: &str) -> Option<Way> {
        match name {
            "next" => Some(Way::Events(Order::Next)),
            "late" => Some(Way::Events(Order::Late)),
            "reverse" => Some(Way::Events(Order::Reverse)),
            "shuffled" => Some(Way::Events(Order::Shuffled)),
            "turns" => Some(Way::Turns(Turns::Forward)),
            "turns-reverse" => Some(Way::Turns(Turns::Backward)),
            "turns-shuffled" => Some(Way::Turns(Turns::Shuffled)),
            _ => None,
        }
    }
}
