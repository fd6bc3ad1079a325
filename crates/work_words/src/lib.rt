// The work words of a job: where its rows lie, and how they are filled before the search, with the rows of the graph,
// the masks of the layers and of the classes, and the root row; a struck vertex is in none of them. The contract of
// `fill_words` cites `Filled` of specs/Filled.antt.
#![tactic(auto)]

mod places;

ghost use Rattle.std.specs.Prelude.{◌≡◌, ◌+◌, ◌*◌, ◌<◌, ◌≤◌, length};
ghost use Rattle.rules.specs.Job.{job_with};
ghost use Rattle.partition.specs.Choice.{class_list};
ghost use Rattle.partition.specs.Words.{Masks, BuilderRoom};
ghost use Rattle.setting.specs.Setting.{setting_of};
ghost use Rattle.work_words.specs.Filled.{Placed, RowsPut, ListChecked, ListBuilt, MasksCut, Filled};

use cliques::Place;
use graph::build_graph;
use partition::{build_classes, class_list, is_partition, put_layers, put_masks};
pub use places::lay_out;
use setting::Options;
use strikes::{cut_rows, put_unstruck, strike_graph};

// A row is w words.
#[derive(Clone, Copy)]
pub struct Layout {
    pub w: usize,
    pub masks: usize,
    pub layers: usize,
    pub graph: usize,
}

// The rows of the graph, the list of the layers and their masks.
fn put_rows(
    sheet: &[u8],
    channels: &[u8],
    place: Place,
    layers: usize,
    built: &mut [u8],
    work: &mut [u64],
)
    requires { Placed (job_with sheet.now channels.now) place layers (length work.old) (length built.old) }
    ensures { RowsPut (job_with sheet.now channels.now) place layers
        work.new built.new }
{
    build_graph(work, place, sheet);
    put_unstruck(work, place.w, sheet, channels);
    strike_graph(work, place, sheet, channels);
    put_layers(sheet, place.k, built);
    put_masks(work, place, layers, built);
}

// Whether the caller's list may be used: it is looked at for choice 2 only.
fn check_list(choice: u32, classes: &[u8], place: Place, work: &mut [u64]) -> bool
    requires { (place.masks + place.k * place.w ≤ place.graph)
        × (place.graph + place.n * place.w ≤ length work.old) × (place.n ≤ 64 * place.w) }
    ensures { ListChecked choice place classes.now work.old work.new result }
{
    choice != 2 || is_partition(work, place, classes)
}

// The classes of choice 1, where the layers stand.
fn build_list(choice: u32, place: Place, built: &mut [u8], work: &mut [u64])
    requires { BuilderRoom place (length work.old) × (length built.old ≡ place.n) × (place.k < 256) }
    ensures { ListBuilt choice place work.old work.new built.old
        built.new }
{
    if choice == 1 {
        build_classes(work, place, built);
    }
}

// The masks of the class list, which is part of either the caller's list or the built one.
fn put_class_masks<'a>(
    choice: u32,
    classes: &'a [u8],
    built: &'a [u8],
    place: Place,
    work: &mut [u64],
)
    requires { (choice ≡ 2 → place.n ≤ length classes.now) × (place.n ≤ length built.now)
        × (place.masks + place.k * place.w ≤ length work.old) × (place.n ≤ 64 * place.w) }
    ensures { Masks place.n place.k
        (class_list choice classes.now built.now place.n)
        place.w place.masks work.old work.new }
{
    let list = class_list(choice, classes, built, place.n);
    put_masks(work, place, place.masks, list);
}

// The root row gets the vertices that are left, and the masks of the classes and of the layers, which stand one after
// the other, are cut to it.
fn cut_masks(sheet: &[u8], channels: &[u8], place: Place, layers: usize, work: &mut [u64])
    requires { Placed (job_with sheet.now channels.now) place layers (length work.old) place.n }
    ensures { MasksCut (job_with sheet.now channels.now) place layers
        work.old work.new }
{
    put_unstruck(work, place.w, sheet, channels);
    cut_rows(work, place.w, place.masks, place.k + place.k);
}

// Fills the words, and says whether the caller's list is none or a partition.
pub fn fill_words(
    sheet: &[u8],
    channels: &[u8],
    options: Options,
    classes: &[u8],
    place: Place,
    layers: usize,
    built: &mut [u8],
    work: &mut [u64],
) -> bool
    requires { Placed (job_with sheet.now channels.now) place layers (length work.old) (length built.old)
        × (options.choice ≤ 2) }
    ensures { Filled (job_with sheet.now channels.now)
        (setting_of options classes.now) place layers work.new result }
{
    // a number, as the caller's setting has it
    let choice = options.choice;
    put_rows(sheet, channels, place, layers, built, work);
    if !check_list(choice, classes, place, work) {
        return false;
    }
    build_list(choice, place, built, work);
    put_class_masks(choice, classes, built, place, work);
    cut_masks(sheet, channels, place, layers, work);
    true
}
