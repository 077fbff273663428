// How messages are laid out by their kind, and what stands before their records.
ghost use Rattle.std.specs.Prelude.{◌≡◌, ◌≤◌, length};
ghost use Rattle.octets.specs.Octets.{put};
ghost use Rattle.packing.specs.Kinds.{is_aggregated, takes_one, front_of, head_size};

use format::Kind;
use octets::write;

// How the messages of a kind are laid out, and how many entries they take.
#[derive(Clone, Copy)]
pub struct Layout {
    // The octets before the first record: the header, and in a packed assert Zero and Reserved.
    pub head: usize,
    // Whether records are those of runs of entries, and not one for each entry.
    pub aggregated: bool,
    // Whether a message takes no more than one entry.
    pub one: bool,
}

fn laid(head: usize, aggregated: bool, one: bool) -> Layout
    ensures { (result.head ≡ head) × (result.aggregated ≡ aggregated) × (result.one ≡ one) }
{
    Layout {
        head,
        aggregated,
        one,
    }
}

// What is laid down for a kind.
pub(crate) fn layout_of(kind: Kind) -> Layout
    ensures { (result.head ≡ head_size kind) × (result.aggregated ≡ is_aggregated kind) × (result.one ≡ takes_one kind) }
{
    match kind {
        Kind::Hello => laid(4, false, false),
        Kind::Assert => laid(4, false, true),
        Kind::Simple => laid(8, false, false),
        Kind::Aggregated => laid(8, true, false),
        Kind::NullRegister => laid(4, false, false),
        Kind::RegisterStop => laid(4, false, false),
    }
}

// Zero and Reserved of a packed assert; answers where the records begin. The header is written last, over the body.
pub(crate) fn put_front(kind: Kind, d: &mut [u8]) -> usize
    requires { head_size kind ≤ length d.old }
    ensures size { result ≡ head_size kind }
    ensures buffer { d.new ≡ put d.old 4 (front_of kind) }
{
    let l = layout_of(kind);
    if l.head == 8 {
        write::<u32>(d, 4, 0);
    }
    l.head
}
