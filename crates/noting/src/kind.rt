// The kind of a map, and what goes by it.
ghost use Rattle.std.specs.Prelude.{◌≡◌, ◌≤◌, length, take};
ghost use Rattle.grammar.specs.Bytes.{ascii};
ghost use Rattle.nodes.specs.Places.{Stands, the};
ghost use Rattle.nodes.specs.Names.{named};
ghost use Rattle.cifti.specs.Maps.{kind_of_map, counted_name, counted_bytes};

use cifti::Kind;
use inside::names::name_is;

// The kind that the word of the map at `at` names.
pub(crate) fn kind_of(text: &[u8], at: usize) -> Kind
    requires { Stands text.now at }
    ensures { result ≡ kind_of_map (the text.now at) }
{
    match inside::attributes::attribute(text, at, b"IndicesMapToDataType") {
        Some(v) => answers::kind_at(vocabulary::kind_named(text, v)),
        None => Kind::None,
    }
}

// The first `count` letters are a name.
#[derive(Clone, Copy)]
struct Letters {
    letters: [u8; 16],
    count: usize,
}

// The name of the children that a map of this kind counts for its length; empty where it counts none.
fn counted_name(kind: Kind) -> Letters
    ensures { (take result.count result.letters ≡ counted_bytes kind) × ((result.count ≡ length (counted_bytes kind)) × (result.count ≤ 16)) }
{
    match kind {
        Kind::None => Letters {
            letters: *b"                ",
            count: 0,
        },
        Kind::Brain => Letters {
            letters: *b"BrainModel      ",
            count: 10,
        },
        Kind::Series => Letters {
            letters: *b"                ",
            count: 0,
        },
        Kind::Scalars => Letters {
            letters: *b"NamedMap        ",
            count: 8,
        },
        Kind::Labels => Letters {
            letters: *b"NamedMap        ",
            count: 8,
        },
    }
}

// The child at `at` is one that a map of this kind counts.
pub(crate) fn counts(text: &[u8], at: usize, kind: Kind) -> bool
    ensures { result ≡ named text.now at (ascii (counted_name kind)) }
{
    let word = counted_name(kind);
    let letters = word.letters;
    name_is(text, at, &letters[..word.count])
}
