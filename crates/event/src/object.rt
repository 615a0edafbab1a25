// What an event can release or acquire.
ghost use Rattle.std.specs.Prelude.{◌≡◌};
ghost use Rattle.event.specs.Objects.{released, acquired};

use crate::letter::Letter;
use crate::record::Event;

// A declared object, or the start or the end of a thread: these are distinct from the declared ones and from each other.
#[derive(Clone, Copy, PartialEq, Eq, Debug)]
pub enum Object {
    Declared(u16),
    Start(u16),
    Finish(u16),
}

impl Event {
    // The object that the event releases: a fork releases the start of the thread that it names, an end its own thread's end.
    pub fn releases(&self) -> Option<Object>
        ensures { result ≡ released self.now }
    {
        match self.letter {
            Letter::Release => Some(Object::Declared(self.number)),
            Letter::Fork => Some(Object::Start(self.number)),
            Letter::End => Some(Object::Finish(u16::from(self.thread))),
            _ => None,
        }
    }

    // The object that the event acquires: a begin acquires its own thread's start, a join the end of the thread that it names.
    pub fn acquires(&self) -> Option<Object>
        ensures { result ≡ acquired self.now }
    {
        match self.letter {
            Letter::Acquire => Some(Object::Declared(self.number)),
            Letter::Join => Some(Object::Finish(self.number)),
            Letter::Begin => Some(Object::Start(u16::from(self.thread))),
            _ => None,
        }
    }
}
