// What a trace that was read has.
ghost use Rattle.std.specs.Prelude.{◌≡◌, ◌≤◌};
ghost use Rattle.trace.specs.Feed.{coming};
ghost use Rattle.trace.specs.Whole.{contents_of, counts_in, count_in};

use crate::events::Events;
use crate::section::Section;
use crate::trace::Trace;
use event::Counts;

impl<'a> Trace<'a> {
    // The section of the threads.
    pub fn threads(&self) -> Section<'a>
        ensures { result ≡ self.now.threads }
    {
        self.threads
    }

    // The section of the objects.
    pub fn objects(&self) -> Section<'a>
        ensures { result ≡ self.now.objects }
    {
        self.objects
    }

    // The section of the variables.
    pub fn variables(&self) -> Section<'a>
        ensures { result ≡ self.now.variables }
    {
        self.variables
    }

    // How many threads, objects and variables are declared.
    pub fn counts(&self) -> Counts
        ensures { result ≡ counts_in self.now }
    {
        Counts::nearest(self.threads.len(), self.objects.len(), self.variables.len())
    }

    // How many events there are.
    pub fn len(&self) -> usize
        ensures count { result ≡ count_in self.now }
        ensures few { result ≤ 1000000 }
    {
        self.events.len().min(6_000_000) / 6
    }

    // The events in the order of the file.
    pub fn events(&self) -> Events<'a>
        ensures counts { result.counts ≡ counts_in self.now }
        ensures events { coming result ≡ (contents_of self.now).events }
    {
        Events::starting(self.events, self.counts())
    }
}
