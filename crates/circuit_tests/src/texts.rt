//! What is read of the texts of tables.

use net_text::{ReadNetFault, read_net};
use rx_lang::Spec;
use rx_syntax::read_spec;
use std::alloc::Global;
use std::test::Fail;
use switch_net::Network;
use switch_sim::{ReadTraceFault, Trace, read_trace};

/// The specification of the text.
pub(crate) fn specification(alloc: Global, text: &str) -> Result<Spec, Fail> {
    if text.len() >= 1 << 20 {
        return Err("too long".into());
    }
    Ok(read_spec(alloc, text.as_bytes(), 4096)?)
}

/// The network of the text, or its refusal.
pub(crate) fn network(alloc: Global, text: &str) -> Result<Result<Network, ReadNetFault>, Fail> {
    if text.len() >= 1 << 20 {
        return Err("too long".into());
    }
    Ok(read_net(alloc, text.as_bytes()))
}

/// The trace at the front of the text and the place behind it, or its refusal.
pub(crate) fn trace(
    alloc: Global,
    text: &str,
) -> Result<Result<(Trace, usize), ReadTraceFault>, Fail> {
    if text.len() >= 1 << 20 {
        return Err("too long".into());
    }
    Ok(read_trace(alloc, text.as_bytes()))
}
