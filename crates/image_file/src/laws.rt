ghost use Rattle.std.specs.Prelude.{◌≡◌, ℕ, List, None};
ghost use Rattle.smm_base.specs.declared.kinds.MapKind.{MapKind};
ghost use Rattle.save_state_map.specs.Images.{ImageContents};
ghost use Rattle.image_file.specs.Spelling.{spelling, AreImages, IsSpelling};
ghost use Rattle.image_file.specs.Refusals.{refusal_of};

/// The laws of the file of images, over every list of images. It does nothing when it runs.
pub fn file_laws()
    // What was written has no refusal, and spells the same images and no others.
    ensures written_is_accepted { (kind : MapKind) (images : List ImageContents) → AreImages kind images → refusal_of (spelling kind images) ≡ None }
    ensures written_is_spelled { (kind : MapKind) (images : List ImageContents) → AreImages kind images → IsSpelling (spelling kind images) images }
    ensures read_back { (kind : MapKind) (images others : List ImageContents) → AreImages kind images → IsSpelling (spelling kind images) others → others ≡ images }

    // A file is the spelling of at most one list of images.
    ensures one_reading { (file : List ℕ) (images others : List ImageContents) → IsSpelling file images → IsSpelling file others → others ≡ images }
{}
