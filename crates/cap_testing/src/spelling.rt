//! The eleven requests as a client means them (`Call`), spelled into frames by hand (`frame`).

use cap_base::RESOURCES;
use std::alloc::{AllocError, Global};

/// So many containers wanted for a key, of this resource each, at a place.
#[derive(Clone, Copy)]
pub struct WantedContainers<'a> {
    pub priority: u32,
    pub request: u64,
    pub count: u32,
    pub resource: [u64; RESOURCES],
    pub place: &'a [u8],
}

/// A request as a client means it: texts of any bytes, and resources in MiB, vcores and GPUs, whatever the engine makes of
/// them.
#[derive(Clone, Copy)]
pub enum Call<'a> {
    Submit(&'a [u8], &'a [u8]),
    RegisterMaster(u64),
    Allocate(u64, u32, &'a [WantedContainers<'a>], &'a [u64]),
    FinishMaster(u64),
    RegisterNode(&'a [u8], &'a [u8], [u64; RESOURCES]),
    Heartbeat(u64, u32, &'a [u64]),
    NodeGone(u64),
    QueueInfo(&'a [u8]),
    SetQueueState(&'a [u8], bool),
    ClusterInfo,
    Refresh(&'a [u8]),
}

/// The frame of a call in this version, with this call id: its length in four bytes, then the version, the kind, the call id
/// and what the call holds. Version 1 has no GPUs.
pub fn frame(
    alloc: Global,
    version: u8,
    call_id: u32,
    call: &Call<'_>,
) -> Result<Vec<u8>, AllocError> {
    let mut bytes = Vec::from_slice(alloc, &[0, 0, 0, 0, version, kind_of(call)])?;
    match put_rest(&mut bytes, version, call_id, call) {
        Ok(()) => Ok(bytes),
        Err(fault) => Err(fault),
    }
}

/// Puts what comes after the kind, and the length into the first four bytes.
fn put_rest(
    bytes: &mut Vec<u8>,
    version: u8,
    call_id: u32,
    call: &Call<'_>,
) -> Result<(), AllocError> {
    bytes.extend_from_slice(&call_id.to_be_bytes())?;
    put_body(bytes, version, call)?;
    let length = u32::try_from(bytes.len().saturating_sub(4)).unwrap_or(u32::MAX);
    if let Some(head) = bytes.first_chunk_mut::<4>() {
        *head = length.to_be_bytes();
    }
    Ok(())
}

fn kind_of(call: &Call<'_>) -> u8 {
    match call {
        Call::Submit(..) => 1,
        Call::RegisterMaster(_) => 2,
        Call::Allocate(..) => 3,
        Call::FinishMaster(_) => 4,
        Call::RegisterNode(..) => 5,
        Call::Heartbeat(..) => 6,
        Call::NodeGone(_) => 7,
        Call::QueueInfo(_) => 8,
        Call::SetQueueState(..) => 9,
        Call::ClusterInfo => 10,
        Call::Refresh(_) => 11,
    }
}

fn put_body(body: &mut Vec<u8>, version: u8, call: &Call<'_>) -> Result<(), AllocError> {
    match call {
        Call::Submit(path, user) => {
            put_text(body, path)?;
            put_text(body, user)
        }
        Call::RegisterMaster(number) | Call::FinishMaster(number) | Call::NodeGone(number) => {
            body.extend_from_slice(&number.to_be_bytes())
        }
        Call::Allocate(app, response, asks, releases) => {
            body.extend_from_slice(&app.to_be_bytes())?;
            body.extend_from_slice(&response.to_be_bytes())?;
            put_asks(body, version, asks)?;
            put_numbers(body, releases)
        }
        Call::RegisterNode(host, rack, total) => {
            put_text(body, host)?;
            put_text(body, rack)?;
            put_amounts(body, version, *total)
        }
        Call::Heartbeat(node, response, ended) => {
            body.extend_from_slice(&node.to_be_bytes())?;
            body.extend_from_slice(&response.to_be_bytes())?;
            put_numbers(body, ended)
        }
        Call::QueueInfo(path) => put_text(body, path),
        Call::SetQueueState(path, running) => {
            put_text(body, path)?;
            body.extend_from_slice(&[*running as u8])
        }
        Call::ClusterInfo => Ok(()),
        Call::Refresh(text) => {
            let size = u32::try_from(text.len()).unwrap_or(u32::MAX);
            body.extend_from_slice(&size.to_be_bytes())?;
            body.extend_from_slice(text)
        }
    }
}

/// A text after its length in one byte.
fn put_text(body: &mut Vec<u8>, text: &[u8]) -> Result<(), AllocError> {
    body.push(u8::try_from(text.len()).unwrap_or(u8::MAX))?;
    body.extend_from_slice(text)
}

fn put_amounts(
    body: &mut Vec<u8>,
    version: u8,
    amounts: [u64; RESOURCES],
) -> Result<(), AllocError> {
    let [memory, vcores, gpus] = amounts;
    body.extend_from_slice(&memory.to_be_bytes())?;
    body.extend_from_slice(&vcores.to_be_bytes())?;
    if version == 1 {
        return Ok(());
    }
    body.extend_from_slice(&gpus.to_be_bytes())
}

/// How many there are, in two bytes.
fn put_length(body: &mut Vec<u8>, length: usize) -> Result<(), AllocError> {
    let length = u16::try_from(length).unwrap_or(u16::MAX);
    body.extend_from_slice(&length.to_be_bytes())
}

fn put_numbers(body: &mut Vec<u8>, numbers: &[u64]) -> Result<(), AllocError> {
    put_length(body, numbers.len())?;
    for number in numbers {
        body.extend_from_slice(&number.to_be_bytes())?;
    }
    Ok(())
}

fn put_asks(
    body: &mut Vec<u8>,
    version: u8,
    asks: &[WantedContainers<'_>],
) -> Result<(), AllocError> {
    put_length(body, asks.len())?;
    for ask in asks {
        body.extend_from_slice(&ask.priority.to_be_bytes())?;
        body.extend_from_slice(&ask.request.to_be_bytes())?;
        body.extend_from_slice(&ask.count.to_be_bytes())?;
        put_amounts(body, version, ask.resource)?;
        put_text(body, ask.place)?;
    }
    Ok(())
}
