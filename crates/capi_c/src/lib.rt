//! The C interface of `capi`: what a caller in C or Rust links.
#![tactic(auto)]

ghost use Rattle.capi.specs.Tells.{Tells};

use capi::Told;
use std::alloc::Global;

/// What `capi::capi_seek` tells, and says in `out`.
///
/// In C: `Told capi_seek(uint32_t method, const uint8_t *bytes, size_t count, uint32_t rows, uint32_t links,
/// uint32_t times, uint32_t *out, size_t room);`.
#[unsafe(no_mangle)]
pub extern "C" fn capi_seek(
    heap: Global,
    method: u32,
    bytes: &[u8],
    rows: u32,
    links: u32,
    times: u32,
    out: &mut [u32],
) -> Told
    ensures { Tells method bytes.now rows links times result out.old out.new }
{
    capi::capi_seek(heap, method, bytes, rows, links, times, out)
}
