// An object as the mutex rule sees it.
ghost use Rattle.std.specs.Prelude.{◌≡◌, true, cond};
ghost use Rattle.format.specs.Standings.{is_mutex, is_free, is_holder};
ghost use Rattle.trace.specs.Standing.{free};

use format::kinds::ObjectKind;

// Its kind, and the thread that holds it.
#[derive(Clone, Copy)]
pub(crate) struct Lock {
    pub(crate) kind: ObjectKind,
    pub(crate) holder: Option<u8>,
}

impl Lock {
    // An object of this kind that nobody holds.
    pub(crate) fn free(kind: ObjectKind) -> Lock
        ensures { result ≡ free kind }
    {
        Lock { kind, holder: None }
    }

    // Whether a thread may acquire it: a mutex only while nobody holds it.
    pub(crate) fn is_open(&self) -> bool
        ensures { result ≡ cond (is_mutex self.now.kind) (is_free self.now.holder) true }
    {
        self.kind != ObjectKind::Mutex || self.holder.is_none()
    }

    // Whether the thread may release it: a mutex only while the thread holds it.
    pub(crate) fn is_open_to(&self, thread: u8) -> bool
        ensures { result ≡ cond (is_mutex self.now.kind) (is_holder thread self.now.holder) true }
    {
        self.kind != ObjectKind::Mutex || self.holder == Some(thread)
    }
}
