ghost use Rattle.std.specs.Prelude.{◌≡◌, ◌≤◌, ◌++◌, IfOk, OnOk, replicate};
ghost use Rattle.smm_command.specs.Recipes.{IsRecipe};
ghost use Rattle.replay_report.specs.Plan.{plan_of, IsPlayable};
ghost use Rattle.generated_rounds.specs.Rounds.{platform_text, zero_image, start_image, round_of, rounds, sum_plan, last_line_of};

use platform_gen::{generate, generated_text};
use replay_report::{Inputs, push_totals, replay_of};
use save_state_map::{Field, Image};
use smm_base::{MapKind, NoMemory};
use smm_command::Recipe;
use std::alloc::Global;

/// How many rounds of all actors a sum replays.
const ROUNDS: u16 = 2000;

/// The revision of the images that a sum begins with.
const REVISION: u64 = 0x30004;

/// Their SMBASE.
const SMBASE: u64 = 0x30000;

/// The text of the generated platform.
#[tactic(auto, unfolding(crate::specs::Rounds::platform_text))]
pub fn platform_text(alloc: Global, recipe: Recipe) -> Result<Vec<u8>, NoMemory>
    requires { IsRecipe recipe }
    ensures { IfOk result (λ text. text.items ≡ platform_text recipe) }
{
    generated_text(alloc, recipe.seed, recipe.processors)
}

// An image of zeros.
#[tactic(auto, using(crate::proofs::RoundLemmas::zeros_long), unfolding(crate::specs::Rounds::zero_image))]
fn zero_image() -> Image
    ensures { result ≡ zero_image }
{
    match Image::new(MapKind::Intel64, &[0; 1024]) {
        Ok(image) => image,
        Err(_) => unreachable!(),
    }
}

// The image that each processor of a generated platform begins with.
fn start_image() -> Image
    ensures { result ≡ start_image }
{
    let mut image = zero_image();
    let _has_revision = image.set_field(Field::Revision, REVISION);
    let _has_smbase = image.set_field(Field::Smbase, SMBASE);
    image
}

// So many times an image.
#[tactic(auto, using(crate::proofs::RoundLemmas::image_more))]
fn images_of(alloc: Global, image: Image, count: u16) -> Result<Vec<Image>, NoMemory>
    ensures { IfOk result (λ images. images.items ≡ replicate count image) }
{
    let mut images = Vec::new(alloc);
    for _place in 0..count {
        images.push(image)?;
    }
    Ok(images)
}

// The images that the processors of a generated platform begin with.
fn start_images(alloc: Global, processors: u16) -> Result<Vec<Image>, NoMemory>
    ensures { IfOk result (λ images. images.items ≡ replicate processors start_image) }
{
    images_of(alloc, start_image(), processors)
}

// Adds a turn of each actor.
#[tactic(auto, using(crate::proofs::RoundLemmas::round_more))]
fn push_round(actors: &mut Vec<u16>, processors: u16) -> Result<(), NoMemory>
    requires { processors ≤ 64 }
    ensures { OnOk result (actors.new.items ≡ actors.old.items ++ round_of processors) }
{
    for actor in 0..processors + 1 {
        actors.push(actor)?;
    }
    Ok(())
}

// The turns of so many rounds.
#[tactic(auto, using(crate::proofs::RoundLemmas::rounds_none, crate::proofs::RoundLemmas::rounds_more))]
fn rounds(alloc: Global, count: u16, processors: u16) -> Result<Vec<u16>, NoMemory>
    requires { processors ≤ 64 }
    ensures { IfOk result (λ actors. actors.items ≡ rounds count processors) }
{
    let mut actors = Vec::new(alloc);
    for _round in 0..count {
        push_round(&mut actors, processors)?;
    }
    Ok(actors)
}

// What a sum replays.
fn sum_inputs(alloc: Global, recipe: Recipe) -> Result<Inputs, NoMemory>
    requires { IsRecipe recipe }
    ensures playable { IfOk result (λ inputs. IsPlayable (plan_of inputs)) }
    ensures plan { IfOk result (λ inputs. plan_of inputs ≡ sum_plan recipe) }
{
    let setup = generate(alloc, recipe.seed, recipe.processors)?;
    let images = start_images(alloc, recipe.processors)?;
    let actors = rounds(alloc, ROUNDS, recipe.processors)?;
    Ok(Inputs {
        setup,
        images,
        actors,
    })
}

// The last line of the report of a replay.
#[tactic(auto, unfolding(crate::specs::Rounds::last_line_of))]
fn last_line_of(alloc: Global, inputs: &Inputs) -> Result<Vec<u8>, NoMemory>
    requires { IsPlayable (plan_of inputs.now) }
    ensures { IfOk result (λ line. line.items ≡ last_line_of (plan_of inputs.now)) }
{
    let replay = replay_of(alloc, inputs)?;
    let mut line = Vec::new(alloc);
    push_totals(replay.events(), replay.complete(), &mut line)?;
    Ok(line)
}

/// The last line of the report of 2,000 rounds of all actors on the generated platform.
pub fn sum_line(alloc: Global, recipe: Recipe) -> Result<Vec<u8>, NoMemory>
    requires { IsRecipe recipe }
    ensures playable { OnOk result (IsPlayable (sum_plan recipe)) }
    ensures line { IfOk result (λ line. line.items ≡ last_line_of (sum_plan recipe)) }
{
    let inputs = sum_inputs(alloc, recipe)?;
    last_line_of(alloc, &inputs)
}
