ghost use Rattle.std.specs.Prelude.{◌≡◌, ◌++◌, IfOk, string_bytes};
ghost use Rattle.platform_document.specs.Path.{key_text, place_text, name_under, path_text};
ghost use Rattle.platform_document.specs.Reading.{path_to};

use cpu_table::Text;
use smm_base::NoMemory;
use std::alloc::Global;

/// A table of a platform file. Entries of a list of tables are counted from 0.
#[derive(Clone, Copy)]
pub enum TablePlace {
    Top,
    Smram,
    Wave(usize),
    Handler(usize),
    /// An operation of a handler, by both their places.
    Operation(usize, usize),
    Procedure(usize),
    Cause(usize),
    /// The I/O instruction of a cause.
    Io(usize),
}

/// A key of version 1 of the platform file.
#[derive(Clone, Copy)]
pub enum Key {
    Version,
    Processors,
    Map,
    Policy,
    Fixed,
    Mode,
    Polls,
    Visits,
    Ops,
    Ids,
    Smram,
    Wave,
    Handler,
    Procedure,
    Cause,
    Base,
    Size,
    Tile,
    Code,
    Status,
    Manage,
    Name,
    Type,
    Answer,
    Op,
    Cpu,
    Reg,
    Width,
    Into,
    Value,
    Arg,
    Token,
    Place,
    Handle,
    Act,
    Visit,
    Halt,
    Io,
    Port,
    Length,
}

impl Key {
    /// The key as it stands in a file.
    pub fn text(self) -> &'static str
        ensures { result.now ≡ key_text self }
    {
        match self {
            Key::Version => "version",
            Key::Processors => "processors",
            Key::Map => "map",
            Key::Policy => "policy",
            Key::Fixed => "fixed",
            Key::Mode => "mode",
            Key::Polls => "polls",
            Key::Visits => "visits",
            Key::Ops => "ops",
            Key::Ids => "ids",
            Key::Smram => "smram",
            Key::Wave => "wave",
            Key::Handler => "handler",
            Key::Procedure => "procedure",
            Key::Cause => "cause",
            Key::Base => "base",
            Key::Size => "size",
            Key::Tile => "tile",
            Key::Code => "code",
            Key::Status => "status",
            Key::Manage => "manage",
            Key::Name => "name",
            Key::Type => "type",
            Key::Answer => "answer",
            Key::Op => "op",
            Key::Cpu => "cpu",
            Key::Reg => "reg",
            Key::Width => "width",
            Key::Into => "into",
            Key::Value => "value",
            Key::Arg => "arg",
            Key::Token => "token",
            Key::Place => "place",
            Key::Handle => "handle",
            Key::Act => "act",
            Key::Visit => "visit",
            Key::Halt => "halt",
            Key::Io => "io",
            Key::Port => "port",
            Key::Length => "length",
        }
    }
}

/// A key of a table.
#[derive(Clone, Copy)]
pub struct Path {
    pub place: TablePlace,
    pub key: Key,
}

/// A key of this table.
pub fn path_to(place: TablePlace, key: Key) -> Path
    ensures { result ≡ path_to place key }
{
    Path { place, key }
}

/// A table by its key, and an entry by its place in brackets after; the top table has no text.
pub fn place_text(alloc: Global, place: TablePlace) -> Result<String, NoMemory>
    ensures { IfOk result (λ text. string_bytes text ≡ place_text place) }
{
    Ok(match place {
        TablePlace::Top => String::new(alloc),
        TablePlace::Smram => String::from_str(alloc, "smram")?,
        TablePlace::Wave(at) => format!(in alloc; "wave[{at}]")?,
        TablePlace::Handler(at) => format!(in alloc; "handler[{at}]")?,
        TablePlace::Operation(handler, at) => format!(in alloc; "handler[{handler}].ops[{at}]")?,
        TablePlace::Procedure(at) => format!(in alloc; "procedure[{at}]")?,
        TablePlace::Cause(at) => format!(in alloc; "cause[{at}]")?,
        TablePlace::Io(at) => format!(in alloc; "cause[{at}].io")?,
    })
}

/// A name in a table: after the table's own text and a dot, if it has one.
pub fn name_under(alloc: Global, place: TablePlace, name: &str) -> Result<Text, NoMemory>
    ensures { IfOk result (λ text. text ≡ name_under place name.now) }
{
    let mut text = place_text(alloc, place)?;
    if !text.is_empty() {
        text.push_str(".")?;
    }
    text.push_str(name)?;
    Ok(Text::new(text))
}

/// The path of a key, as a fault tells it.
pub fn path_text(alloc: Global, path: Path) -> Result<Text, NoMemory>
    ensures { IfOk result (λ text. text ≡ path_text path) }
{
    name_under(alloc, path.place, path.key.text())
}
