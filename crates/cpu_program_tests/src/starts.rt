ghost use Rattle.std.specs.Prelude.{◌≡◌, ◌<◌, IfOk, IfSome};
ghost use Rattle.cpu_table.specs.Data.{data_of};

use crate::turns::Others;
use cpu_program::{Cargo, Program};
use cpu_regs::Regs;
use cpu_table::Setup;
use handler_ops::{BoxedDesk, Desk, Server};
use save_state_map::Image;
use smm_base::{MapKind, NoMemory, Policy};
use std::alloc::Global;

const ZEROS: [u8; 1024] = [0; 1024];

/// A program among what the others hold, with its actor's number and that of processors.
#[derive(Drop)]
pub struct Actor {
    pub processors: u16,
    pub me: u16,
    pub program: Program,
    pub others: Others,
}

impl Actor {
    /// An actor before its first event: a processor with a blank image of Intel 64, or the chipset.
    pub fn new(alloc: Global, setup: Setup, me: u16) -> Option<Actor> {
        let program = first_program(alloc, &setup, me)?;
        let processors = setup.processors;
        let things = things_of_others(alloc, &setup, me)?;
        let others = Others { setup, things };
        Some(Actor {
            processors,
            me,
            program,
            others,
        })
    }

    /// The image that it last resumed from is all zeros.
    pub fn is_blank(&self) -> bool {
        match self.program.last() {
            Some(image) => image.bytes().iter().all(|byte| *byte == 0),
            None => false,
        }
    }
}

fn first_program(alloc: Global, setup: &Setup, me: u16) -> Option<Program> {
    if me < setup.processors {
        processor(alloc, setup, me)
    } else {
        Program::new(alloc, setup, setup.processors, None, None, None).ok()
    }
}

fn processor(alloc: Global, setup: &Setup, me: u16) -> Option<Program>
    requires { me < setup.now.processors }
{
    let image = blank_image(setup.kind)?;
    let registers = Regs::of(&image);
    let chair = own_chair(alloc, setup, me).ok()?;
    Program::new(alloc, setup, me, Some(image), Some(registers), chair).ok()
}

fn blank_image(kind: MapKind) -> Option<Image>
    ensures { IfSome result (λ image. image.kind ≡ kind) }
{
    Image::new(kind, &ZEROS).ok()
}

// The fixed BSP has the chair.
fn own_chair(alloc: Global, setup: &Setup, me: u16) -> Result<Option<Server>, NoMemory>
    ensures { IfOk result (λ chair. IfSome chair (λ server. server.setup ≡ data_of setup.now)) }
{
    match setup.policy {
        Policy::Elected => Ok(None),
        Policy::Fixed(bsp) => {
            if me == bsp {
                Ok(Some(Server::new(alloc, setup)?))
            } else {
                Ok(None)
            }
        }
    }
}

// The desks of the others, and the chair where the BSP is elected.
fn things_of_others(alloc: Global, setup: &Setup, me: u16) -> Option<Vec<Option<Cargo>>> {
    let mut things = Vec::with_capacity(alloc, usize::from(setup.processors) + 1).ok()?;
    for cpu in 0..setup.processors {
        let desk = if cpu == me {
            None
        } else {
            Some(blank_desk(alloc, setup.kind)?)
        };
        things.push(desk).ok()?;
    }
    things.push(free_chair(alloc, setup).ok()?).ok()?;
    Some(things)
}

fn blank_desk(alloc: Global, kind: MapKind) -> Option<Cargo> {
    let image = blank_image(kind)?;
    let desk = BoxedDesk::new(alloc, Desk { image, job: None }).ok()?;
    Some(Cargo::Desk(desk))
}

fn free_chair(alloc: Global, setup: &Setup) -> Result<Option<Cargo>, NoMemory> {
    match setup.policy {
        Policy::Elected => Ok(Some(Cargo::Chair(Server::new(alloc, setup)?))),
        Policy::Fixed(_) => Ok(None),
    }
}
