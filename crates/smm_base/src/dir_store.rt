ghost use Rattle.std.specs.Prelude.{◌≡◌, ◌<◌, ◌≤◌, length, vec_len, IfOk, IfSome};
ghost use Rattle.std.specs.Bool.{OnTrue};
ghost use Rattle.std.specs.Io.KnownBytes.{Appends};

use crate::{LoadError, SaveError, Store};
use std::alloc::{AllocError, Global};
use std::fs;
use std::io::{ErrorKind, Read, Write};
use std::rt::Files;

/// How many bytes a read asks for.
const PIECE: usize = 65536;

/// The files of the working folder. It tells nothing of what they hold.
#[derive(Drop)]
pub struct DirStore<R> {
    runtime: R,
    load_faults: u64,
    save_faults: u64,
}

impl<R: Files> DirStore<R> {
    ghost use Rattle.smm_base.specs.DirStore.{failed_loads_of, failed_saves_of};

    /// The files of a runtime's working folder, with no faults yet.
    pub fn new(runtime: R) -> Self
        ensures no_failed_loads { failed_loads_of result ≡ 0 }
        ensures no_failed_saves { failed_saves_of result ≡ 0 }
    {
        DirStore {
            runtime,
            load_faults: 0,
            save_faults: 0,
        }
    }
}

impl<R: Files> Store for DirStore<R> {
    ghost use Rattle.std.specs.Prelude.{None};
    ghost use Rattle.smm_base.specs.DirStore.{failed_loads_of, failed_saves_of, Moves};

    ghost files = { λ _. None };

    ghost failed_loads = { failed_loads_of };

    ghost failed_saves = { failed_saves_of };

    ghost fails_next = { λ _. None };

    ghost moves = { Moves };

    fn load(&mut self, alloc: Global, name: &str, limit: u64) -> Result<Vec<u8>, LoadError> {
        match load_file(&self.runtime, alloc, name, limit) {
            Ok(content) => Ok(content),
            Err(LoadError::NoMemory) => Err(LoadError::NoMemory),
            Err(error) => {
                self.load_faults = self.load_faults.saturating_add(1);
                Err(error)
            }
        }
    }

    fn save(&mut self, name: &str, bytes: &[u8]) -> Result<(), SaveError> {
        if save_file(&self.runtime, name, bytes) {
            Ok(())
        } else {
            self.save_faults = self.save_faults.saturating_add(1);
            Err(SaveError::Failed)
        }
    }

    ghost loads_never_fall = { λ before after moved. moved.loads };

    ghost saves_never_fall = { λ before after moved. moved.saves };
}

// Reads a file to its end, or refuses it.
fn load_file<R: Files>(
    runtime: &R,
    alloc: Global,
    name: &str,
    limit: u64,
) -> Result<Vec<u8>, LoadError>
    ensures { IfOk result (λ bytes. vec_len bytes ≤ limit) }
{
    match fs::open(runtime, name) {
        Ok(mut file) => {
            let mut piece = zeros(alloc, PIECE)?;
            read_content(alloc, &mut file, &mut piece, limit)
        }
        Err(error) => {
            if error.kind() == ErrorKind::NotFound {
                Err(LoadError::Missing)
            } else {
                Err(LoadError::Failed)
            }
        }
    }
}

fn zeros(alloc: Global, len: usize) -> Result<Vec<u8>, AllocError>
    ensures { IfOk result (λ bytes. vec_len bytes ≡ len) }
{
    vec![in alloc; 0; len]
}

// Reads all that is left in a file, a piece at a time, as far as the limit allows.
fn read_content<F: Read>(
    alloc: Global,
    file: &mut F,
    piece: &mut [u8],
    limit: u64,
) -> Result<Vec<u8>, LoadError>
    requires { 0 < length piece.old }
    ensures within_limit { IfOk result (λ bytes. vec_len bytes ≤ limit) }
    ensures whole { IfOk result (λ bytes. IfSome (F.remaining file.old) (λ all. bytes.items ≡ all)) }
{
    let mut content = Vec::new(alloc);
    for _ in 0..u64::MAX {
        let Ok(count) = file.read(piece) else {
            return Err(LoadError::Failed);
        };
        if count == 0 {
            return Ok(content);
        }
        if count as u64 > limit - content.len() as u64 {
            return Err(LoadError::TooLong);
        }
        content.extend_from_slice(&piece[..count])?;
    }
    Err(LoadError::Failed)
}

// Writes a file anew, and says whether all of it was taken.
fn save_file<R: Files>(runtime: &R, name: &str, bytes: &[u8]) -> bool {
    match fs::create(runtime, name) {
        Ok(mut file) => write_content(&mut file, bytes),
        Err(_) => false,
    }
}

// Writes all the bytes, and says whether they were taken.
fn write_content<F: Write>(file: &mut F, bytes: &[u8]) -> bool
    ensures { OnTrue result (Appends (F.contents file.old) (F.contents file.new) bytes.now) }
{
    let mut done = 0;
    while done < bytes.len() {
        match file.write(&bytes[done..]) {
            Ok(0) | Err(_) => return false,
            Ok(count) => done += count,
        }
    }
    true
}
