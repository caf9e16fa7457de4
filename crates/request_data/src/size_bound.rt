// A bound on the size of a request's data, found without making the data.
ghost use Rattle.std.specs.Prelude.{◌≡◌, ◌+◌, ◌*◌, ◌≤◌, IfSome, length, nat_lt, option_copied};
ghost use Rattle.std.specs.List.{sum_by};
ghost use Rattle.json.specs.Print.{escape, escape_byte};
ghost use Rattle.data_tree.specs.Json.{size};
ghost use Rattle.request_data.specs.Inner.Lengths.{header_weight, template_len};
ghost use Rattle.request_data.specs.RequestTree.{request_tree};

use mock_request::snapshot::Snapshot;
use path_template::path_template::PathTemplate;

// The most bytes of JSON for each byte of a request, and for each header. A byte of a `host` header is in the data four
// times, each time as U+FFFD with three bytes where it isn't UTF-8, and each of those has an escape of six. A byte of a
// query takes even more, as a name with the value's brackets.
const JSON_OF_ONE: usize = 84;

// The most bytes of JSON for each byte of a body. It is in the data as a text, in which a byte has an escape of six at
// most, and as the value of a JSON text, which is written no longer than that text; that has three bytes, U+FFFD, for
// a byte that isn't UTF-8.
const JSON_OF_BODY: usize = 9;

// The most bytes of JSON that the data of each request has, whatever the request.
const JSON_OF_NONE: usize = 1_000;

// The most bytes of JSON for each byte of a body that is UTF-8, besides those of escapes: one in its text and one in its
// value.
const JSON_OF_TEXT: usize = 2;

// The most bytes that an escape has more than the byte that it stands for.
const JSON_OF_ESCAPE: usize = 5;

// The bytes of a block, whose escapes are counted in a `u8`: a register holds sixteen of these.
const BLOCK: usize = 255;

/// At least the size of the data that `request_data` makes. It takes no memory, and doesn't look at the body's bytes.
/// `None`: the bound would be larger than any size can be.
pub fn size_bound(snapshot: &Snapshot, template: Option<&PathTemplate>) -> Option<u64>
    ensures { IfSome result (λ bound. size (request_tree snapshot.now (option_copied template.entry)) ≤ bound) }
{
    let of_body = snapshot.body().len().checked_mul(JSON_OF_BODY)?;
    let of_head = head_bound(snapshot, template)?;
    Some(of_head.checked_add(of_body)? as u64)
}

/// At least that size, too. It takes no memory, and looks at the body's bytes: so it is less than half of `size_bound`
/// for most bodies. `None`: the body isn't UTF-8, or the bound would be larger than any size can be.
pub fn closer_size_bound(snapshot: &Snapshot, template: Option<&PathTemplate>) -> Option<u64>
    ensures { IfSome result (λ bound. size (request_tree snapshot.now (option_copied template.entry)) ≤ bound) }
{
    let Ok(text) = str::from_utf8(snapshot.body()) else {
        return None;
    };
    let of_escapes = escape_count(text).checked_mul(JSON_OF_ESCAPE)?;
    let of_body = text
        .len()
        .checked_mul(JSON_OF_TEXT)?
        .checked_add(of_escapes)?;
    let of_head = head_bound(snapshot, template)?;
    Some(of_head.checked_add(of_body)? as u64)
}

// What the data have beside those of the body, at most.
fn head_bound(snapshot: &Snapshot, template: Option<&PathTemplate>) -> Option<usize>
    ensures { IfSome result (λ bound. bound
        ≡ 84 * (sum_by header_weight snapshot.now.headers + length snapshot.now.headers + length snapshot.now.method
        + length snapshot.now.url + template_len (option_copied template.entry)) + 1000) }
{
    header_bytes(snapshot)?
        .checked_add(snapshot.header_count())?
        .checked_add(snapshot.method().len())?
        .checked_add(snapshot.url().len())?
        .checked_add(template_bytes(template))?
        .checked_mul(JSON_OF_ONE)?
        .checked_add(JSON_OF_NONE)
}

// How many bytes of a text have an escape in a JSON text.
fn escape_count(text: &str) -> usize
    ensures { length (escape text.now) ≤ length text.now + 5 * result }
{
    let mut count: usize = 0;
    let mut rest = text.as_bytes();
    while rest.len() > BLOCK {
        let (block, after) = rest.split_at(BLOCK);
        count += usize::from(escapes_in(block));
        rest = after;
    }
    count + usize::from(escapes_in(rest))
}

fn escapes_in(block: &[u8]) -> u8
    requires { length block.now ≤ BLOCK }
    ensures most { length (escape block.now) ≤ length block.now + 5 * result }
    ensures few { result ≤ length block.now }
{
    let mut count: u8 = 0;
    for byte in block {
        if has_escape(*byte) {
            count += 1;
        }
    }
    count
}

#[tactic(auto, unfolding(json::specs::Print::escape_byte))]
fn has_escape(byte: u8) -> bool
    ensures { result ≡ nat_lt 1 (length (escape_byte byte)) }
{
    byte < b' ' || byte == b'"' || byte == b'\\'
}

// What the headers count.
fn header_bytes(snapshot: &Snapshot) -> Option<usize>
    ensures { IfSome result (λ total. total ≡ sum_by header_weight snapshot.now.headers) }
{
    let mut total: usize = 0;
    for index in 0..snapshot.header_count() {
        let (name, value) = snapshot.header(index)?;
        total = total.checked_add(header_weight(name, value)?)?;
    }
    Some(total)
}

fn header_weight(name: &str, value: &[u8]) -> Option<usize>
    ensures { IfSome result (λ weight. weight ≡ header_weight (record { name = name.now; value = value.now })) }
{
    let times: usize = if name == "cookie" { 3 } else { 1 };
    value.len().checked_mul(times)?.checked_add(name.len())
}

fn template_bytes(template: Option<&PathTemplate>) -> usize
    ensures { result ≡ template_len (option_copied template.entry) }
{
    match template {
        Some(template) => template.source().len(),
        None => 0,
    }
}
