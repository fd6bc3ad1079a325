// The working partition: a class for each of n vertices, below k, and no two adjacent vertices in a class.
// The contracts cite specs/Partition.antt, the classes of each choice, and specs/Words.antt, how graph and classes
// stand in words.
#![tactic(auto)]

mod classes;
mod degrees;
mod masks;

ghost use Rattle.std.specs.Prelude.{◌≡◌, true, ◌+◌, ◌*◌, ◌<◌, ◌≤◌, ltb, length};
ghost use Rattle.sets.specs.Below.{all};
ghost use Rattle.sheet_rows.specs.Rows.{HasLinks};
ghost use Rattle.pair_test.specs.Layers.{layer_of};
ghost use Rattle.partition.specs.Partition.{class_of, layers_of};
ghost use Rattle.partition.specs.Choice.{class_list};
ghost use Rattle.partition.specs.Words.{Alone, AllAlone, Tested};

pub use classes::build_classes;
use cliques::Place;
pub use masks::put_masks;
use pair_test::layer;

// Choice 0: the class of a vertex is its layer, among k links.
pub fn put_layers(sheet: &[u8], k: usize, cls: &mut [u8])
    requires { HasLinks sheet.now k × (k < 256) }
    ensures { cls.new ≡ layers_of (length cls.old) (layer_of sheet.now k) }
{
    for (v, class) in cls.iter_mut().enumerate() {
        let l = layer(sheet, k, v);
        *class = l as u8;
    }
}

// Whether v is adjacent to none of its class, where the masks stand.
fn is_alone(part: &[u64], place: Place, cls: &[u8], v: usize) -> bool
    requires { (place.masks + place.k * place.w ≤ length part.now)
        × (place.graph + place.n * place.w ≤ length part.now)
        × (place.n ≤ length cls.now) × (v < place.n) × (class_of cls.now v < place.k) }
    ensures { Alone place cls.now part.now v result }
{
    let w = place.w;
    let a = rows::row_at(place.graph, w, v, place.n);
    let b = rows::row_at(place.masks, w, usize::from(cls[v]), place.k);
    rows::is_empty_common(part, w, a, b)
}

// Whether each of n vertices is adjacent to none of its class.
fn all_alone(part: &[u64], place: Place, cls: &[u8]) -> bool
    requires { (place.masks + place.k * place.w ≤ length part.now)
        × (place.graph + place.n * place.w ≤ length part.now) × (place.n ≤ length cls.now)
        × (all place.n (λ v. ltb (class_of cls.now v) place.k) ≡ true) }
    ensures { AllAlone place cls.now part.now result }
{
    for v in 0..place.n {
        if !is_alone(part, place, cls, v) {
            return false;
        }
    }
    true
}

// Choice 2: whether the caller's list is a partition. The k rows of the masks, before the graph's, are written.
pub fn is_partition(part: &mut [u64], place: Place, cls: &[u8]) -> bool
    requires { (place.masks + place.k * place.w ≤ place.graph)
        × (place.graph + place.n * place.w ≤ length part.old) × (place.n ≤ 64 * place.w) }
    ensures { Tested place cls.now part.old part.new result }
{
    if cls.len() != place.n {
        return false;
    }
    if !classes::is_placed(place.n, place.k, cls) {
        return false;
    }
    masks::put_masks(part, place, place.masks, cls);
    all_alone(part, place, cls)
}

// The class list of a choice: a part of the caller's list or of the built one.
// `choice` is a number, as the caller's setting has it.
pub fn class_list<'a>(choice: u32, callers: &'a [u8], built: &'a [u8], n: usize) -> &'a [u8]
    requires { (choice ≡ 2 → n ≤ length callers.now) × (n ≤ length built.now) }
    ensures { result.now ≡ class_list choice callers.now built.now n }
{
    if choice == 2 {
        &callers[..n]
    } else {
        &built[..n]
    }
}
