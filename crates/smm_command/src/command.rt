ghost use Rattle.std.specs.Prelude.{◌≡◌, IfOk, IfSome, length, option_map, string_bytes};
ghost use Rattle.std.specs.List.{list_any};
ghost use Rattle.std.specs.Str.{bytes_eq};
ghost use Rattle.smm_command.specs.Commands.{texts, word_at, begins_with_dash, is_form, step_of, check_of, generated_form, form_of, IsCommand};
ghost use Rattle.smm_command.specs.declared.command.Command.TheVariants as command;
ghost use Rattle.smm_command.specs.Recipes.{recipe_of, IsRecipe};

use crate::recipe::{Recipe, read_recipe};
use cpu_table::Text;
use smm_base::NoMemory;
use std::alloc::Global;

/// A command with its names.
#[derive(Drop)]
pub enum Command {
    /// Replays a schedule on a platform.
    Step(Step),
    /// Replays it, and goes on until every actor is off.
    Finish(Step),
    /// Judges a trace of a platform.
    Check(Check),
    /// Writes a generated platform.
    Make(Recipe),
    /// Replays many rounds of all actors on a generated platform, and writes the report's last line.
    Sum(Recipe),
}

/// The names of the files of a step, or of a finish.
#[derive(Drop)]
pub struct Step {
    pub platform: Text,
    pub images: Text,
    pub schedule: Text,
    /// The name for the images after.
    pub after: Text,
}

/// The names of the files of a check.
#[derive(Drop)]
pub struct Check {
    pub platform: Text,
    pub images: Text,
    pub trace: Text,
}

// The word at a place, and the empty text past the last.
fn word(words: &Vec<String>, place: usize) -> &str
    ensures { result.now ≡ word_at (texts words.now.items) place }
{
    match words.get(place) {
        Some(word) => word.as_str(),
        None => "",
    }
}

// Is the first byte `-`?
fn is_option(word: &str) -> bool
    ensures { result ≡ begins_with_dash word.now }
{
    word.as_bytes().first().copied().unwrap_or(0) == b'-'
}

// How many words are there?
fn count_words(words: &Vec<String>) -> usize
    ensures { result ≡ length (texts words.now.items) }
{
    words.len()
}

// Does one of the words begin with `-`?
#[tactic(auto, using(crate::proofs::WordLemmas::list_any_texts))]
fn has_option(words: &Vec<String>) -> bool
    ensures { result ≡ list_any begins_with_dash (texts words.now.items) }
{
    any_option(words)
}

fn any_option(words: &Vec<String>) -> bool
    ensures { result ≡ list_any (λ word. begins_with_dash (string_bytes word)) words.now.items }
{
    words.iter().any(|word| is_option(word.as_str()))
}

// Is it this name?
fn is_name(word: &str, name: &str) -> bool
    ensures { result ≡ bytes_eq word.now name.now }
{
    word == name
}

// Are there so many words, of which the first is this name, and is none an option?
#[tactic(auto, unfolding(crate::specs::Commands::is_form))]
fn is_form(words: &Vec<String>, count: usize, name: &str) -> bool
    ensures { result ≡ is_form count name.now (texts words.now.items) }
{
    count_words(words) == count && is_name(word(words, 0), name) && !has_option(words)
}

// The names in the words of a step, or of a finish.
fn step_of(alloc: Global, words: &Vec<String>) -> Result<Step, NoMemory>
    ensures { IfOk result (λ names. names ≡ step_of (texts words.now.items)) }
{
    Ok(Step {
        platform: Text::from_str(alloc, word(words, 1))?,
        images: Text::from_str(alloc, word(words, 2))?,
        schedule: Text::from_str(alloc, word(words, 3))?,
        after: Text::from_str(alloc, word(words, 4))?,
    })
}

// The names in the words of a check.
fn check_of(alloc: Global, words: &Vec<String>) -> Result<Check, NoMemory>
    ensures { IfOk result (λ names. names ≡ check_of (texts words.now.items)) }
{
    Ok(Check {
        platform: Text::from_str(alloc, word(words, 1))?,
        images: Text::from_str(alloc, word(words, 2))?,
        trace: Text::from_str(alloc, word(words, 3))?,
    })
}

// What the words behind a command's name make a generated platform from.
fn recipe_in(words: &Vec<String>) -> Option<Recipe>
    ensures recipe { result ≡ recipe_of (word_at (texts words.now.items) 1) (word_at (texts words.now.items) 2) }
    ensures in_range { IfSome result IsRecipe }
{
    read_recipe(word(words, 1), word(words, 2))
}

// The command that writes a generated platform.
fn make_of(words: &Vec<String>) -> Option<Command>
    ensures command { result ≡ option_map command.Make (recipe_of (word_at (texts words.now.items) 1) (word_at (texts words.now.items) 2)) }
    ensures in_range { IfSome result IsCommand }
{
    Some(Command::Make(recipe_in(words)?))
}

// The command that replays on one.
fn sum_of(words: &Vec<String>) -> Option<Command>
    ensures command { result ≡ option_map command.Sum (recipe_of (word_at (texts words.now.items) 1) (word_at (texts words.now.items) 2)) }
    ensures in_range { IfSome result IsCommand }
{
    Some(Command::Sum(recipe_in(words)?))
}

// The command of the words, where they are of the form of one on a generated platform.
fn generated_form(words: &Vec<String>) -> Option<Command>
    ensures command { result ≡ generated_form (texts words.now.items) }
    ensures in_range { IfSome result IsCommand }
{
    if is_form(words, 3, "make") {
        make_of(words)
    } else if is_form(words, 3, "sum") {
        sum_of(words)
    } else {
        None
    }
}

/// The command of the words, where they are of a command's form.
pub fn command_of(alloc: Global, words: &Vec<String>) -> Result<Option<Command>, NoMemory>
    ensures command { IfOk result (λ command. command ≡ form_of (texts words.now.items)) }
    ensures in_range { IfOk result (λ command. IfSome command IsCommand) }
{
    if is_form(words, 5, "step") {
        Ok(Some(Command::Step(step_of(alloc, words)?)))
    } else if is_form(words, 5, "finish") {
        Ok(Some(Command::Finish(step_of(alloc, words)?)))
    } else if is_form(words, 4, "check") {
        Ok(Some(Command::Check(check_of(alloc, words)?)))
    } else {
        Ok(generated_form(words))
    }
}
