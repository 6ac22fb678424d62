ghost use Rattle.std.specs.Prelude.{◌≡◌, IfOk, slice_index_or, true};
ghost use Rattle.cpu_table.specs.Data.{data_of};
ghost use Rattle.serving_place.specs.Beginning.{program_of};
ghost use Rattle.serving_place.specs.Due.{due};
ghost use Rattle.serving_place.specs.Forms.{Own};
ghost use Rattle.serving_place.specs.Places.{next};
ghost use Rattle.serving_place.specs.Sayings.{operation_due};
ghost use Rattle.serving_place.specs.Serving.{ran, tokens_out};
ghost use Rattle.serving_judge.specs.Tests.{accepts_own, accepts_run, is_nothing};
ghost use Rattle.serving_judge.specs.Dues.{start_due, width_due, HasTokenRoom};
ghost use Rattle.serving_judge.specs.Judging.{setting_of, first_judging, begun, finished};

use crate::next::StartDue;
use crate::takes::{is_over, saying_of, start_due, takes, takes_run, width_due};
use cpu_table::Setup;
use serving_place::{
    MOST_LEVELS, Pending, Progress, State, Tokens, free_seats, pool_of_platform, registered,
};
use smm_base::{NoMemory, Status};
use std::alloc::Global;
use std::marker::Model;
use sync_words::Label;

/// What a boot processor has said while serving, as far as it bears on what may follow. The lists themselves aren't stored.
#[derive(Drop)]
pub struct Judge {
    progress: Progress,
}

impl Model for Judge {
    ghost use Rattle.serving_judge.specs.Judging.{Judging};

    ghost Value = { Judging };

    ghost use Rattle.serving_judge.specs.Judging.{judging_in};
    ghost use Rattle.serving_place.specs.Progresses.{IsGoing};

    ghost view = { λ j. judging_in j.progress };

    ghost invariant = { λ j. IsGoing j.progress };
}

impl Judge {
    /// The judge of a platform's lists, before the first session: the handlers of the file are registered in their order, and
    /// the pool is that of the layout. It takes all memory that it will use.
    pub fn new(alloc: Global, setup: &Setup) -> Result<Judge, NoMemory>
        ensures { IfOk result (λ judge. judge ≡ first_judging (data_of setup.now)) }
    {
        let registrations = registered(alloc, setup.handlers.as_slice())?;
        let pool = pool_of_platform(alloc, setup)?;
        let seats = free_seats(alloc, usize::from(setup.processors))?;
        let tokens = Tokens::new(alloc)?;
        let walks = Vec::with_capacity(alloc, MOST_LEVELS)?;
        let setup = setup.copy()?;
        let units = setup.ops;
        Ok(Judge {
            progress: Progress {
                setup,
                me: 0,
                wave: 0,
                entry: 0,
                walks,
                pending: Pending::Nothing,
                marked: false,
                state: State::new(registrations, pool, seats, tokens, units),
            },
        })
    }

    /// A list begins, of a session whose boot processor is `bsp` and whose wave is `wave`: it is empty, and its registrations
    /// and its pool are those that there are.
    pub fn begin(&mut self, bsp: u16, wave: u32)
        ensures { self.new ≡ begun bsp wave self.old }
    {
        self.progress.me = bsp;
        self.progress.wave = wave;
        self.progress.entry = 0;
        self.progress.walks.clear();
        self.progress.pending = Pending::First(wave);
        self.progress.state.begin(self.progress.setup.ops);
    }

    /// No list goes on: what is registered and the pool stay as they are.
    pub fn finish(&mut self)
        ensures { self.new ≡ finished self.old }
    {
        self.progress.me = 0;
        self.progress.wave = 0;
        self.progress.entry = 0;
        self.progress.walks.clear();
        self.progress.pending = Pending::Nothing;
        self.progress.state.begin(self.progress.setup.ops);
    }

    /// The platform.
    pub fn setup(&self) -> &Setup
        ensures { data_of result.now ≡ self.now.setup }
    {
        &self.progress.setup
    }

    /// The id of a processor, or 0 where the platform hasn't the processor.
    pub fn id_of(&self, cpu: u16) -> u64
        ensures { result ≡ slice_index_or self.now.setup.ids cpu 0 }
    {
        self.progress.id_of(cpu)
    }

    /// The boot processor may say this label next: the list with it can be made whole.
    pub fn accepts(&self, label: &Label) -> bool
        ensures { result ≡ accepts_own (program_of self.now.setup) self.now.place label.now }
    {
        takes(&self.progress, *label)
    }

    /// This processor may have run its job with this number next.
    pub fn accepts_run(&self, cpu: u16, job: u32) -> bool
        ensures { result ≡ accepts_run (program_of self.now.setup) self.now.place cpu job }
    {
        takes_run(&self.progress, cpu, job)
    }

    /// The boot processor says a label that may come next; where it gives a job with a token, fewer than 64 are out.
    #[tactic(auto, using(crate::proofs::Saying::fits_now, crate::proofs::Saying::said_now, crate::proofs::Saying::goes_on))]
    pub fn say(&mut self, label: &Label)
        requires accepted { accepts_own (program_of self.old.setup) self.old.place label.now ≡ true }
        requires room { HasTokenRoom label.now (operation_due (due (program_of self.old.setup) self.old.place)) (tokens_out self.old.place.state) }
        ensures { self.new ≡ record self.old { place = next (program_of self.old.setup) self.old.place (Own label.now) } }
    {
        let _ = self.progress.say(saying_of(*label));
    }

    /// A processor ran its job, with this result and status.
    #[tactic(auto, using(crate::proofs::Saying::runs_on))]
    pub fn run(&mut self, cpu: u16, result_value: u64, status: Status)
        ensures { self.new ≡ record self.old { place = record self.old.place { state = ran cpu result_value status self.old.place.state } } }
    {
        self.progress.state.run(cpu, result_value, status);
    }

    /// The list is whole, or none has begun.
    pub fn is_over(&self) -> bool
        ensures { result ≡ is_nothing (due (program_of self.now.setup) self.now.place) }
    {
        is_over(&self.progress)
    }

    /// The job that the operation that is due is to give. None where it is to give none.
    pub fn start_due(&self) -> Option<StartDue>
        ensures { result ≡ start_due (setting_of self.now) self.now.place.state (due (program_of self.now.setup) self.now.place) }
    {
        start_due(&self.progress)
    }

    /// How many bytes the operation that is due reads. None where it is no read.
    pub fn read_width(&self) -> Option<u8>
        ensures { result ≡ width_due (due (program_of self.now.setup) self.now.place) }
    {
        width_due(&self.progress)
    }
}
