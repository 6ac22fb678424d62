ghost use Rattle.std.specs.Prelude.{◌≡◌, ◌≤◌, ◌<◌, Ok, All, IfErr, IfOk, length};
ghost use Rattle.smm_base.specs.Calls.{Leads};
ghost use Rattle.smm_base.specs.Faults.{Rose};
ghost use Rattle.cpu_table.specs.Data.{data_of};
ghost use Rattle.rendezvous_core.specs.Starts.{AreImagesOf};
ghost use Rattle.smm_player.specs.declared.refusal.Refusal.TheVariants.{Read as read, TooLong as too_long};
ghost use Rattle.replay_report.specs.Plan.{plan_of, IsPlayable};
ghost use Rattle.smm_player.specs.Due.{loaded, platform_found, platform_due, images_found, images_due, schedule_found, schedule_due, plan_with, plan_on, plan_due, IsDue};
ghost use Rattle.smm_player.specs.Loading.{IsLoadFault, IsRefusedFor, LoadCause, StopsReading};

use crate::fault::{Fault, images_fault, platform_fault, schedule_fault};
use crate::images::{ImagesFault, serving};
use crate::refusal::Refusal;
use cpu_table::{Setup, Text};
use image_file::read_images;
use platform_file::{read_platform, read_schedule};
use rendezvous_core::start_fault;
use replay_report::Inputs;
use save_state_map::Image;
use smm_base::{LoadError, MapKind, Store};
use smm_command::Step;
use std::alloc::Global;

/// How many bytes a platform file has at most.
const PLATFORM_LIMIT: u64 = 1_048_576;

/// How many bytes an image file has at most: as many as 64 images of the larger kind take.
const IMAGES_LIMIT: u64 = 65_548;

/// How many bytes a schedule has at most.
const SCHEDULE_LIMIT: u64 = 4_194_304;

// The fault of a file that was not loaded.
fn unread(alloc: Global, name: &Text) -> Fault
    ensures { IsRefusedFor (read name.now) result }
{
    match Text::from_str(alloc, name.as_str()) {
        Ok(name) => Fault::Refused(Refusal::Read(name)),
        Err(_) => Fault::Memory,
    }
}

// The fault of a file that is longer than its limit.
fn too_long(alloc: Global, name: &Text, limit: u64) -> Fault
    ensures { IsRefusedFor (too_long name.now limit) result }
{
    match Text::from_str(alloc, name.as_str()) {
        Ok(name) => Fault::Refused(Refusal::TooLong(name, limit)),
        Err(_) => Fault::Memory,
    }
}

// The fault by the error of a load.
fn load_fault(alloc: Global, name: &Text, limit: u64, error: LoadError) -> Fault
    ensures { IsLoadFault limit name.now error result }
{
    match error {
        LoadError::Failed => unread(alloc, name),
        LoadError::Missing => unread(alloc, name),
        LoadError::TooLong => too_long(alloc, name, limit),
        LoadError::NoMemory => Fault::Memory,
    }
}

// The bytes of an input file.
pub(crate) fn load_file<F: Store>(
    alloc: Global,
    name: &Text,
    limit: u64,
    store: &mut F,
) -> Result<Vec<u8>, Fault>
    ensures due { IfOk result (λ bytes. IsDue (λ held. loaded limit name.now (held name.now)) (F.files store.old) bytes.items) }
    ensures cause { IfErr result (LoadCause (λ held. loaded limit name.now (held name.now)) (F.files store.old) (Rose (F.failed_loads store.old) (F.failed_loads store.new))) }
    ensures files_stay { F.files store.new ≡ F.files store.old }
    ensures moved { Leads F.moves store.old store.new }
{
    match store.load(alloc, name.as_str(), limit) {
        Ok(bytes) => Ok(bytes),
        Err(error) => Err(load_fault(alloc, name, limit, error)),
    }
}

// The setup of a platform file.
fn setup_of(alloc: Global, bytes: &[u8]) -> Result<Setup, Fault>
    ensures found { IfOk result (λ setup. platform_found bytes.now ≡ Ok (data_of setup)) }
    ensures cause { IfErr result (StopsReading (platform_found bytes.now)) }
{
    match read_platform(alloc, bytes) {
        Ok(setup) => Ok(setup),
        Err(error) => Err(platform_fault(error)),
    }
}

// Loads the platform, and reads it.
pub(crate) fn load_platform<F: Store>(
    alloc: Global,
    name: &Text,
    store: &mut F,
) -> Result<Setup, Fault>
    ensures due { IfOk result (λ setup. IsDue (platform_due name.now) (F.files store.old) (data_of setup)) }
    ensures cause { IfErr result (LoadCause (platform_due name.now) (F.files store.old) (Rose (F.failed_loads store.old) (F.failed_loads store.new))) }
    ensures files_stay { F.files store.new ≡ F.files store.old }
    ensures moved { Leads F.moves store.old store.new }
{
    match load_file(alloc, name, PLATFORM_LIMIT, store) {
        Ok(bytes) => setup_of(alloc, &bytes),
        Err(fault) => Err(fault),
    }
}

// The images of an image file, on a platform of the kind and of so many processors.
fn images_of(
    alloc: Global,
    bytes: &[u8],
    kind: MapKind,
    processors: u16,
) -> Result<Vec<Image>, Fault>
    ensures found { IfOk result (λ images. images_found kind processors bytes.now ≡ Ok images.items) }
    ensures count { IfOk result (λ images. length images.items ≡ processors) }
    ensures kind { IfOk result (λ images. All (λ image. image.kind ≡ kind) images.items) }
    ensures cause { IfErr result (StopsReading (images_found kind processors bytes.now)) }
{
    match read_images(alloc, bytes) {
        Ok(images) => serving(images, kind, processors),
        Err(error) => Err(images_fault(error)),
    }
}

// Loads the images, and reads them.
pub(crate) fn load_images<F: Store>(
    alloc: Global,
    name: &Text,
    setup: &Setup,
    store: &mut F,
) -> Result<Vec<Image>, Fault>
    ensures serve { IfOk result (λ images. AreImagesOf (data_of setup.now) images.items) }
    ensures due { IfOk result (λ images. IsDue (images_due name.now (data_of setup.now)) (F.files store.old) images.items) }
    ensures cause { IfErr result (LoadCause (images_due name.now (data_of setup.now)) (F.files store.old) (Rose (F.failed_loads store.old) (F.failed_loads store.new))) }
    ensures files_stay { F.files store.new ≡ F.files store.old }
    ensures moved { Leads F.moves store.old store.new }
{
    match load_file(alloc, name, IMAGES_LIMIT, store) {
        Ok(bytes) => images_of(alloc, &bytes, setup.kind, setup.processors),
        Err(fault) => Err(fault),
    }
}

// The actors of a schedule, on a platform of so many processors.
fn actors_of(alloc: Global, bytes: &[u8], processors: u16) -> Result<Vec<u16>, Fault>
    ensures found { IfOk result (λ actors. schedule_found processors bytes.now ≡ Ok actors.items) }
    ensures known { IfOk result (λ actors. All (λ actor. actor ≤ processors) actors.items) }
    ensures cause { IfErr result (StopsReading (schedule_found processors bytes.now)) }
{
    match read_schedule(alloc, bytes, processors) {
        Ok(actors) => Ok(actors),
        Err(error) => Err(schedule_fault(error)),
    }
}

// Loads the schedule, and reads it.
fn load_schedule<F: Store>(
    alloc: Global,
    name: &Text,
    setup: &Setup,
    store: &mut F,
) -> Result<Vec<u16>, Fault>
    ensures known { IfOk result (λ actors. All (λ actor. actor ≤ setup.now.processors) actors.items) }
    ensures due { IfOk result (λ actors. IsDue (schedule_due name.now (data_of setup.now)) (F.files store.old) actors.items) }
    ensures cause { IfErr result (LoadCause (schedule_due name.now (data_of setup.now)) (F.files store.old) (Rose (F.failed_loads store.old) (F.failed_loads store.new))) }
    ensures files_stay { F.files store.new ≡ F.files store.old }
    ensures moved { Leads F.moves store.old store.new }
{
    match load_file(alloc, name, SCHEDULE_LIMIT, store) {
        Ok(bytes) => actors_of(alloc, &bytes, setup.processors),
        Err(fault) => Err(fault),
    }
}

// Loads what is left once the platform and the images are there.
fn load_with<F: Store>(
    alloc: Global,
    names: &Step,
    setup: Setup,
    images: Vec<Image>,
    store: &mut F,
) -> Result<Inputs, Fault>
    requires { AreImagesOf (data_of setup) images.items }
    ensures playable { IfOk result (λ inputs. IsPlayable (plan_of inputs)) }
    ensures due { IfOk result (λ inputs. IsDue (plan_with names.now (data_of setup) images.items) (F.files store.old) (plan_of inputs)) }
    ensures cause { IfErr result (LoadCause (plan_with names.now (data_of setup) images.items) (F.files store.old) (Rose (F.failed_loads store.old) (F.failed_loads store.new))) }
    ensures files_stay { F.files store.new ≡ F.files store.old }
    ensures moved { Leads F.moves store.old store.new }
{
    match load_schedule(alloc, &names.schedule, &setup, store) {
        Ok(actors) => {
            match start_fault(&setup, &images) {
                None => {
                    Ok(Inputs {
                        setup,
                        images,
                        actors,
                    })
                }
                Some(error) => {
                    Err(Fault::Refused(Refusal::Images(ImagesFault::NotRelocated(error))))
                }
            }
        }
        Err(fault) => Err(fault),
    }
}

// Loads what is left once the platform is there.
fn load_on<F: Store>(
    alloc: Global,
    names: &Step,
    setup: Setup,
    store: &mut F,
) -> Result<Inputs, Fault>
    ensures playable { IfOk result (λ inputs. IsPlayable (plan_of inputs)) }
    ensures due { IfOk result (λ inputs. IsDue (plan_on names.now (data_of setup)) (F.files store.old) (plan_of inputs)) }
    ensures cause { IfErr result (LoadCause (plan_on names.now (data_of setup)) (F.files store.old) (Rose (F.failed_loads store.old) (F.failed_loads store.new))) }
    ensures files_stay { F.files store.new ≡ F.files store.old }
    ensures moved { Leads F.moves store.old store.new }
{
    match load_images(alloc, &names.images, &setup, store) {
        Ok(images) => load_with(alloc, names, setup, images, store),
        Err(fault) => Err(fault),
    }
}

// Loads and reads the three input files, one after another.
pub(crate) fn load_inputs<F: Store>(
    alloc: Global,
    names: &Step,
    store: &mut F,
) -> Result<Inputs, Fault>
    ensures playable { IfOk result (λ inputs. IsPlayable (plan_of inputs)) }
    ensures due { IfOk result (λ inputs. IsDue (plan_due names.now) (F.files store.old) (plan_of inputs)) }
    ensures cause { IfErr result (LoadCause (plan_due names.now) (F.files store.old) (Rose (F.failed_loads store.old) (F.failed_loads store.new))) }
    ensures files_stay { F.files store.new ≡ F.files store.old }
    ensures moved { Leads F.moves store.old store.new }
{
    match load_platform(alloc, &names.platform, store) {
        Ok(setup) => load_on(alloc, names, setup, store),
        Err(fault) => Err(fault),
    }
}
