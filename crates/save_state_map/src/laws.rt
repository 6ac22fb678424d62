ghost use Rattle.std.specs.Prelude.{◌≡◌, ◌≢◌, ℕ, ◌+◌, ◌≤◌, Some, IfSome, slice_index};
ghost use Rattle.smm_base.specs.declared.kinds.MapKind.{MapKind};
ghost use Rattle.save_state_map.specs.declared.field.Place.{Place};
ghost use Rattle.save_state_map.specs.declared.field.Field.{Field};
ghost use Rattle.save_state_map.specs.Fields.{field_place, image_length};
ghost use Rattle.save_state_map.specs.Images.{ImageContents, IsImage, IsApart, IsOutside, field_of, with_field, Accepts};

/// The laws of the two field tables, over every image. It does nothing when it runs.
pub fn field_laws()
    // Each field lies within its image, and no two fields of a map have a byte in common.
    ensures within { (kind : MapKind) (f : Field) (p : Place) → field_place kind f ≡ Some p → p.offset + p.width ≤ image_length kind }
    ensures apart { (kind : MapKind) (f g : Field) (p q : Place) → f ≢ g → field_place kind f ≡ Some p → field_place kind g ≡ Some q → IsApart p q }

    // A number that was put into a field is read back; other fields and all bytes outside stay.
    ensures reads_back { (m : ImageContents) (f : Field) (x : ℕ) → IsImage m → Accepts m f x → field_of (with_field m f x) f ≡ Some x }
    ensures other_fields_stay { (m : ImageContents) (f g : Field) (x : ℕ) → IsImage m → f ≢ g → field_of (with_field m f x) g ≡ field_of m g }
    ensures other_bytes_stay { (m : ImageContents) (f : Field) (x at : ℕ) → IsImage m → IfSome (field_place m.kind f) (λ p. IsOutside p at) → slice_index (with_field m f x).bytes at ≡ slice_index m.bytes at }

    // What is put into an image leaves an image, and an image takes each number that it has.
    ensures stays_image { (m : ImageContents) (f : Field) (x : ℕ) → IsImage m → IsImage (with_field m f x) }
    ensures takes_own { (m : ImageContents) (f : Field) (x : ℕ) → IsImage m → field_of m f ≡ Some x → Accepts m f x }
{}
