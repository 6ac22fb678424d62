ghost use Rattle.std.specs.Prelude.{◌≡◌, ◌<◌, None};
ghost use Rattle.sync_words.specs.Steps.{Accepts, IsWantWithin, found_of};
ghost use Rattle.arrival.specs.Report.{bsp_of, left_of, report_of, taken, want_of};

use crate::rows::{is_last_look, look_at, want};
use cpu_table::Setup;
use std::marker::Model;
use sync_words::{Access, Applied, Hand, LOCKED, Label, Row, Want, WordId};

/// How an AP waits for the BSP and reports to it. It ends before the wait for its release, or, where it gave up, before the wait for the
/// session to end.
#[derive(Drop)]
pub struct Report {
    processors: u16,
    first_looks: u32,
    second_looks: u32,
    me: u16,
    row: Row,
    bsp: u16,
}

impl Model for Report {
    ghost use Rattle.arrival.specs.Report.{ReportPosition, IsReport};

    ghost Value = { ReportPosition };

    ghost use Rattle.arrival.specs.Views.{report_view};

    ghost view = { report_view };

    ghost invariant = { λ r. IsReport (report_view r) };
}

impl Report {
    /// The report of the processor `me`, which is below the number of processors, at its first row.
    pub fn new(setup: &Setup, me: u16) -> Report
        requires { me < setup.now.processors }
        ensures { result ≡ report_of setup.now.processors setup.now.t1 setup.now.t2 me }
    {
        Report {
            processors: setup.processors,
            first_looks: setup.t1,
            second_looks: setup.t2,
            me,
            row: Row::AwaitInside(0),
            bsp: 0,
        }
    }

    /// The row of another part that comes next, or none while this part goes on.
    pub fn left(&self) -> Option<Row>
        ensures { result ≡ left_of self.now.row }
    {
        match self.row {
            Row::AwaitInside(_)
            | Row::FindBsp
            | Row::SignalBsp
            | Row::AwaitInsideAgain(_)
            | Row::CountOut
            | Row::SeekBsp
            | Row::Report
            | Row::TellReported => None,
            next => Some(next),
        }
    }

    /// The BSP that it waited to be known, or none before that, and where it gave up.
    pub fn bsp(&self) -> Option<u16>
        ensures { result ≡ bsp_of self.now.row self.now.bsp }
    {
        match self.row {
            Row::Report | Row::TellReported | Row::AwaitRelease => Some(self.bsp),
            _ => None,
        }
    }

    /// What the AP wants, while this part goes on. Constant time.
    pub fn want(&self) -> Want
        requires { left_of self.now.row ≡ None }
        ensures row { result ≡ want_of self.now.row self.now }
        ensures within { IsWantWithin self.now.processors result }
    {
        match self.row {
            Row::AwaitInside(_) | Row::AwaitInsideAgain(_) => look_at(WordId::Inside),
            Row::FindBsp => look_at(WordId::Bsp),
            Row::SignalBsp => want(WordId::Pend(self.bsp), Access::Signal),
            Row::CountOut => want(WordId::Counter, Access::Lower),
            Row::SeekBsp => want(WordId::Bsp, Access::Seek(self.processors.into())),
            Row::Report => Want::Access {
                word: WordId::Present(self.me),
                access: Access::Put(1),
                hand: Hand::Give(self.me),
            },
            Row::TellReported => want(WordId::Run(self.bsp), Access::Up),
            _ => Want::Off,
        }
    }

    /// Goes on after the wanted access was accepted, and gives what the event says. Constant time.
    pub fn take(&mut self, applied: Applied) -> Label
        requires goes_on { left_of self.old.row ≡ None }
        requires accepted { Accepts (want_of self.old.row self.old) applied }
        ensures label { result ≡ (taken self.old.row self.old (found_of applied)).label }
        ensures after { self.new ≡ (taken self.old.row self.old (found_of applied)).after }
    {
        let found = applied.found();
        match self.row {
            Row::AwaitInside(_) | Row::AwaitInsideAgain(_) if found != 0 => {
                self.row = Row::SeekBsp;
                Label::Silent
            }
            Row::AwaitInside(looks) if is_last_look(looks, self.first_looks) => {
                self.row = Row::FindBsp;
                Label::Silent
            }
            Row::AwaitInside(looks) => {
                self.row = Row::AwaitInside(looks + 1);
                Label::Silent
            }
            Row::FindBsp if found < u32::from(self.processors) => {
                self.bsp = found as u16;
                self.row = Row::SignalBsp;
                Label::Silent
            }
            Row::FindBsp | Row::SignalBsp => {
                self.row = Row::AwaitInsideAgain(0);
                Label::Silent
            }
            Row::AwaitInsideAgain(looks) if is_last_look(looks, self.second_looks) => {
                self.row = Row::CountOut;
                Label::Silent
            }
            Row::AwaitInsideAgain(looks) => {
                self.row = Row::AwaitInsideAgain(looks + 1);
                Label::Silent
            }
            Row::CountOut if found != LOCKED => {
                self.row = Row::AwaitSessionEnd;
                Label::Quit
            }
            Row::CountOut => {
                self.row = Row::SeekBsp;
                Label::Silent
            }
            Row::SeekBsp => {
                self.bsp = found as u16;
                self.row = Row::Report;
                Label::Silent
            }
            Row::Report => {
                self.row = Row::TellReported;
                Label::Report
            }
            Row::TellReported => {
                self.row = Row::AwaitRelease;
                Label::Silent
            }
            _ => Label::Silent,
        }
    }
}
