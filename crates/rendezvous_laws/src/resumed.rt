ghost use Rattle.std.specs.Prelude.{ℕ, ◌≡◌, List, Some, slice_get};
ghost use Rattle.save_state_map.specs.Images.{ImageContents};
ghost use Rattle.cpu_regs.specs.Registers.{Registers};
ghost use Rattle.cpu_table.specs.Data.{SetupData};
ghost use Rattle.rendezvous_machine.specs.Machines.{beginning, member};
ghost use Rattle.rendezvous_machine.specs.Runs.{Said, IsRun, machine_after, resumed_image};

/// In every run of the machine, with any number of processors, the image that a processor last resumed from follows from
/// its first registers and image, the labels and the platform's causes alone.
pub fn resumed_images()
    ensures last { (d : SetupData) (registers : List Registers) (images : List ImageContents) (es : List Said) (i : ℕ) (own : Registers) (image : ImageContents) →
        slice_get registers i ≡ Some own → slice_get images i ≡ Some image →
        IsRun d (beginning d registers images) es →
        (member (machine_after d (beginning d registers images) es) i).last ≡ resumed_image d i own image es }
{}
