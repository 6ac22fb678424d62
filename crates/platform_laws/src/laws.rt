ghost use Rattle.std.specs.Prelude.{◌≡◌, ◌<◌, ◌^◌, ℕ, List, Ok, Err};
ghost use Rattle.toml.specs.Data.{Members};
ghost use Rattle.uuid.specs.Text.{IsLetter, lower};
ghost use Rattle.std.specs.Int.{w128, from_be_bytes, to_be_bytes};
ghost use Rattle.std.specs.Str.{str_to_ascii_lowercase};
ghost use Rattle.cpu_table.specs.Data.{SetupData};
ghost use Rattle.platform_file.specs.Walk.{setup_at, setup_read};
ghost use Rattle.platform_laws.specs.Words.{IsGuidText, IsGuid};
ghost use Rattle.platform_laws.specs.Says.{Says};
ghost use Rattle.platform_laws.specs.Fits.{Fits};
ghost use Rattle.platform_laws.specs.Faults.{IsFault};
ghost use Rattle.platform_laws.specs.Platform.{StandsFor, IsWrong};
ghost use Rattle.platform_document.specs.declared.fault.WalkFault.{WalkFault};
ghost use Rattle.platform_file.specs.declared.error.PlatformError.{PlatformError};

/// The laws of platform files, over every file and every setup. It does nothing when it runs.
pub fn platform_laws()
    // A setup that is read from a document is said by it and fits, and one that is said and fits is read.
    ensures said { (t : Members) (d : SetupData) → setup_at t ≡ Ok d → Says t d }
    ensures fits { (t : Members) (d : SetupData) → setup_at t ≡ Ok d → Fits d }
    ensures read { (t : Members) (d : SetupData) → Says t d → Fits d → setup_at t ≡ Ok d }

    // No document says two setups that fit.
    ensures one { (t : Members) (d e : SetupData) → Says t d → Fits d → Says t e → Fits e → d ≡ e }

    // A GUID that is printed, in lower or in upper case, is that GUID's text, and every text of it is a printed one but for the case.
    ensures guid_written { (letter guid : ℕ) (text : List ℕ) → IsLetter letter → guid < 2 ^ 128 → IsGuidText letter (to_be_bytes w128 guid) text → IsGuid text guid }
    ensures guid_printed { (text : List ℕ) (guid : ℕ) → IsGuid text guid → (bytes : List ℕ) × (guid ≡ from_be_bytes w128 bytes) × IsGuidText lower bytes (str_to_ascii_lowercase text) }

    // The same of files: what is read from the bytes is what they stand for, and they stand for one setup at most.
    ensures file_stands { (bytes : List ℕ) (d : SetupData) → setup_read bytes ≡ Ok d → StandsFor bytes d }
    ensures file_read { (bytes : List ℕ) (d : SetupData) → StandsFor bytes d → setup_read bytes ≡ Ok d }
    ensures file_one { (bytes : List ℕ) (d e : SetupData) → StandsFor bytes d → StandsFor bytes e → d ≡ e }

    // A fault at which reading stops is one of the document; a document with a fault says no setup that fits, and one
    // without any says one.
    ensures fault { (t : Members) (f : WalkFault) → setup_at t ≡ Err f → IsFault t f }
    ensures faulty { (t : Members) (f : WalkFault) (d : SetupData) → IsFault t f → Says t d → Fits d → ⊥ }
    ensures faultless { (t : Members) → ((f : WalkFault) → IsFault t f → ⊥) → (d : SetupData) × Says t d × Fits d }

    // The same of files: an error that is answered says what is wrong with the bytes; bytes with which something is wrong
    // stand for no setup, and others for one.
    ensures file_fault { (bytes : List ℕ) (e : PlatformError) → setup_read bytes ≡ Err e → IsWrong bytes e }
    ensures file_faulty { (bytes : List ℕ) (e : PlatformError) (d : SetupData) → IsWrong bytes e → StandsFor bytes d → ⊥ }
    ensures file_faultless { (bytes : List ℕ) → ((e : PlatformError) → IsWrong bytes e → ⊥) → (d : SetupData) × StandsFor bytes d }
{}
