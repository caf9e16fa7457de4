// Whether a response may take long to render.
use helper_set::helper::Helper;
use mapping_model::response_spec::{Body, Content};
use mapping_model::template_text::TemplateText;
use mock_request::snapshot::Snapshot;
use request_match::shared_spec::SharedSpec;
use std::simd::prelude::*;
use stub_response::prepared::Prepared;
use template_code::instr::Instr;

// The steps that the templates of a response may take without holding others up. A step takes some 100 ns, besides what
// its helper does with a value.
const STEPS: u64 = 200_000;

// The bytes that their helpers may handle so, in all steps together (64 MiB). No value is larger than the request's
// data.
const HANDLED_BYTES: u64 = 67_108_864;

// The bytes of the data of a request beside those of its URL, headers and body, or some more.
const DATA_OF_NONE: usize = 300;

// The items of those data, or some more.
const ITEMS_OF_NONE: usize = 16;

/// Whether rendering the response of a mapping may take long. It is a guess by the size of the request, what separates
/// the items of its data, and the code and the budgets of the templates: nothing but the thread on which they are
/// rendered depends on it.
#[inline]
pub(crate) fn is_slow(mapping: &SharedSpec, request: &Snapshot) -> bool {
    match mapping.prepared() {
        Prepared::Response(_plain) => false,
        Prepared::Headers(_headers) => may_be_slow(mapping, request),
        Prepared::Nothing => may_be_slow(mapping, request),
    }
}

// Not inlined: a plain response needs none of this.
#[inline(never)]
fn may_be_slow(mapping: &SharedSpec, request: &Snapshot) -> bool {
    let content = &mapping.spec().response.content;
    let size = data_size(request);
    let steps = steps_at(content, size);
    if steps <= STEPS && handled(steps, size) <= HANDLED_BYTES {
        return false;
    }
    // A budget takes each byte of the data for an item.
    let steps = steps_at(content, item_count(request));
    steps > STEPS || handled(steps, size) > HANDLED_BYTES && handles_again(content)
}

// The bytes that helpers handle, if each step has one that handles all of the data.
fn handled(steps: u64, size: u64) -> u64 {
    steps.saturating_mul(size)
}

// The most steps of the templates of a response over data of that size, or 2^64 - 1 where there are more.
fn steps_at(content: &Content, size: u64) -> u64 {
    let Content::Templated { headers, body } = content else {
        return 0;
    };
    let mut steps: u64 = 0;
    for header in headers.as_slice() {
        steps = steps.saturating_add(template_steps(&header.value, size));
    }
    match body {
        Body::Text(template) => steps.saturating_add(template_steps(template, size)),
        _ => steps,
    }
}

// `Budget::at` would find the bytes too, and either as a number of 128 bits.
fn template_steps(template: &TemplateText, size: u64) -> u64 {
    let mut steps: u64 = 0;
    let mut power: u64 = 1;
    for coefficient in template.program().budget().steps() {
        steps = steps.saturating_add(power.saturating_mul(*coefficient));
        power = power.saturating_mul(size);
    }
    steps
}

// Whether a template has a loop in whose turns a helper may handle the same value again.
fn handles_again(content: &Content) -> bool {
    let Content::Templated { headers, body } = content else {
        return false;
    };
    for header in headers.as_slice() {
        if is_handling_again(&header.value) {
            return true;
        }
    }
    matches!(body, Body::Text(template) if is_handling_again(template))
}

// Whether it has in loops both a value that isn't a part of the innermost loop's item, and a helper that handles all of
// a value. The parts of the items of one loop are no more than the data, all together.
fn is_handling_again(template: &TemplateText) -> bool {
    let mut depth: usize = 0;
    let mut has_value = false;
    let mut has_helper = false;
    for instr in template.program().code().instrs() {
        match *instr {
            Instr::Each(_end) => depth = depth.saturating_add(1),
            Instr::Next(_start) => depth = depth.saturating_sub(1),
            Instr::Root(_path) => has_value = has_value || depth > 0,
            Instr::Item(outer, _path) => has_value = has_value || outer > 0,
            Instr::Call(helper) => has_helper = has_helper || depth > 0 && handles_all(helper),
            _ => {}
        }
    }
    has_value && has_helper
}

// Whether the helper goes over all of a value. What compares two texts ends where their lengths differ, or else goes
// over them as fast as memory is read.
fn handles_all(helper: Helper) -> bool {
    match helper {
        Helper::Upper
        | Helper::Lower
        | Helper::Trim
        | Helper::Size
        | Helper::Contains
        | Helper::Base64
        | Helper::UrlEncode => true,
        Helper::Eq | Helper::Neq | Helper::Not | Helper::DefaultIfEmpty | Helper::JsonPath => false,
    }
}

// About how large the data of a request is, found without making it.
fn data_size(request: &Snapshot) -> u64 {
    let mut size = DATA_OF_NONE
        .saturating_add(request.url().len())
        .saturating_add(request.body().len());
    for index in 0..request.header_count() {
        if let Some((name, value)) = request.header(index) {
            size = size.saturating_add(name.len()).saturating_add(value.len());
        }
    }
    size as u64
}

// About how many items the data of a request have, found without making it: those of a query, a path, cookies, and a
// JSON body have one of these bytes before them.
fn item_count(request: &Snapshot) -> u64 {
    let mut count = ITEMS_OF_NONE
        .saturating_add(request.header_count())
        .saturating_add(separator_count(request.url().as_bytes()))
        .saturating_add(separator_count(request.body()));
    for index in 0..request.header_count() {
        if let Some((_name, value)) = request.header(index) {
            count = count.saturating_add(separator_count(value));
        }
    }
    count as u64
}

fn separator_count(bytes: &[u8]) -> usize {
    let (blocks, rest) = bytes.as_chunks::<32>();
    let mut count: usize = 0;
    for block in blocks {
        count = count.wrapping_add(block_separator_count(u8x32::from_array(*block)));
    }
    for byte in rest {
        if matches!(*byte, b'&' | b'/' | b';' | b',' | b'[' | b'{') {
            count = count.wrapping_add(1);
        }
    }
    count
}

#[inline(always)]
fn block_separator_count(bytes: u8x32) -> usize {
    let are_separators = bytes.simd_eq(u8x32::splat(b'&'))
        | bytes.simd_eq(u8x32::splat(b'/'))
        | bytes.simd_eq(u8x32::splat(b';'))
        | bytes.simd_eq(u8x32::splat(b','))
        | bytes.simd_eq(u8x32::splat(b'['))
        | bytes.simd_eq(u8x32::splat(b'{'));
    are_separators.to_bitmask().count_ones() as usize
}
