// How closely a thread monitors a variable.
ghost use Rattle.std.specs.Prelude.{◌≡◌};
ghost use Rattle.monitor.specs.Placement.{suits};
ghost use Rattle.monitor.specs.Overlaps.{meets};
ghost use Rattle.monitor.specs.Levels.{after, rank, higher, lower, worth};

use event::Letter;

// In rising order.
#[derive(Clone, Copy, PartialEq, Eq, PartialOrd, Ord, Debug)]
pub enum Level {
    None,
    Weak,
    Strong,
}

impl Level {
    // The level after an event with this letter, on the event's own thread and variable.
    pub fn after(self, letter: Letter) -> Level
        ensures { result ≡ after letter self }
    {
        match letter {
            Letter::Strong => Level::Strong,
            Letter::Weak => self.max(Level::Weak),
            Letter::Downgrade => self.min(Level::Weak),
            Letter::Stop => Level::None,
            _ => self,
        }
    }

    // 0 for none, 1 for weak, 2 for strong: the place in the derived order, for a caller who wants a number.
    pub fn rank(self) -> u8
        ensures { result ≡ rank self }
    {
        self as u8
    }

    // The higher of two levels: `max` by the subject's word.
    pub fn higher(self, other: Level) -> Level
        ensures { result ≡ higher self other }
    {
        self.max(other)
    }

    // The lower of two levels: `min` by the subject's word.
    pub fn lower(self, other: Level) -> Level
        ensures { result ≡ lower self other }
    {
        self.min(other)
    }

    // The highest level that an event with this letter fits: a write fits strong, a read weak, and what is no access none.
    pub fn worth(letter: Letter) -> Level
        ensures { result ≡ worth letter }
    {
        match letter {
            Letter::Write => Level::Strong,
            Letter::Read => Level::Weak,
            _ => Level::None,
        }
    }

    // Whether an access with this letter fits the level: a strong level fits writes, a weak one any access.
    pub fn suits(self, letter: Letter) -> bool
        ensures { result ≡ suits self letter }
    {
        self != Level::None && self <= Level::worth(letter)
    }

    // Whether one of the two levels is strong and the other not none.
    pub fn meets(self, other: Level) -> bool
        ensures { result ≡ meets self other }
    {
        self.max(other) == Level::Strong && self.min(other) != Level::None
    }
}
