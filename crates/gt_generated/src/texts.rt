// The header and the script of `:N`.
ghost use Rattle.std.specs.Prelude.{◌≡◌, ◌≤◌, ◌+◌, ◌*◌, ◌++◌, IfOk, OnOk, length};
ghost use Rattle.gt_generated.specs.Generated.{garbage_text, header_text, link_text, node_text, script_text};

use gt_digits::push_decimal;
use gt_types::Bytes;
use std::alloc::{AllocError, Global};

/// The header under which a generated script runs. It fails only if memory runs out.
#[tactic(auto, unfolding(crate::specs::Generated::header_text))]
pub fn header(alloc: Global) -> Result<Bytes, AllocError>
    ensures text { IfOk result (λ text. text ≡ header_text) }
    ensures short { IfOk result (λ text. length text ≤ 1024) }
{
    Bytes::of(
        alloc,
        b"struct GTY((chain_next(\"%h.next\"))) node {
  struct node *next;
  struct node *other;
  int key;
};
static GTY(()) struct node *head;
static GTY(()) struct node *tail;
static GTY((deletable)) struct node *memo;
static GTY((cache)) hash_map<struct node *, struct node *> *map;
",
    )
}

/// The generated script: the lines of each of `n` nodes, a collection, and what the heap then holds. It has at most 128 bytes for each
/// node and 64 more. It fails only if memory runs out.
#[tactic(auto, unfolding(crate::specs::Generated::script_text))]
pub fn script(alloc: Global, n: u32) -> Result<Bytes, AllocError>
    ensures text { IfOk result (λ text. text ≡ script_text n) }
    ensures short { IfOk result (λ text. length text ≤ 128 * n + 64) }
{
    let mut text = Bytes::new(alloc);
    for i in 0..n {
        push_node(alloc, &mut text, i)?;
    }
    text.append(b"collect force\nheap\nstats\n")?;
    Ok(text)
}

// Adds the lines of the i-th node.
fn push_node(alloc: Global, text: &mut Bytes, i: u32) -> Result<(), AllocError>
    ensures added { OnOk result (text.new ≡ text.old ++ node_text i) }
    ensures short { OnOk result (length text.new ≤ length text.old + 128) }
{
    text.append(b"@new $n node\n@set $n.key ")?;
    push_decimal(alloc, text, i as u64)?;
    text.append(b"\n")?;
    text.append(link(i))?;
    text.append(b"@set head $n\n@get $p head\n")?;
    text.append(garbage(i))?;
    Ok(())
}

// The line that links a node to the one before it.
fn link(i: u32) -> &'static [u8]
    ensures text { result.now ≡ link_text i }
    ensures short { length result.now ≤ 16 }
{
    if i == 0 { b"" } else { b"@set $n.next $p\n" }
}

// The lines of a node that nothing reaches, which each third node has.
fn garbage(i: u32) -> &'static [u8]
    ensures text { result.now ≡ garbage_text i }
    ensures short { length result.now ≤ 30 }
{
    if i % 3 == 2 {
        b"@new $w node\n@set $w.other $n\n"
    } else {
        b""
    }
}
