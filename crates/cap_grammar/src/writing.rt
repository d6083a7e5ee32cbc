//! Requests of each kind written as bytes (`write_request`).
ghost use Rattle.std.specs.Prelude.{◌≡◌, ◌≤◌, ◌<◌, ◌+◌, ◌*◌, ◌++◌, ◌∷◌, length, true};
ghost use Rattle.std.specs.Int.{w16, w32, w64, to_be_bytes};
ghost use Rattle.std.specs.List.{flat_map};
ghost use Rattle.cap_base.specs.Limits.{resources};
ghost use Rattle.cap_model.specs.declared.request.Request.TheVariants as Request;
ghost use Rattle.cap_grammar.specs.Spelling.{FitsRequest, IsRequest, ask, byte, flag, list_bytes, request_body, request_bytes, resource, text};
ghost use Rattle.cap_grammar.specs.Versions.{amounts_in, is_version};

use crate::head::Head;
use crate::output::{Out, REQUEST_ROOM, put_amounts};
use crate::replies::put_head;
use crate::requests::kind;
use cap_base::{RESOURCES, Text};
use cap_model::{Ask, Asks, Numbers, Request, SettingsText};

// A text, with its length before it.
fn put_text<const MAX: usize>(written: &Text<MAX>, out: &mut Out)
    requires short { MAX < 256 }
    requires room { MAX < out.old.spare }
    ensures appends { out.new.items ≡ out.old.items ++ text written.now }
    ensures spare { out.new.spare + length (text written.now) ≡ out.old.spare }
    ensures len { length (text written.now) ≤ MAX + 1 }
{
    let bytes = written.as_bytes();
    out.extend_reserved(&[bytes.len() as u8]);
    out.extend_reserved(bytes);
}

// A number of eight bytes.
fn put_long(number: u64, out: &mut Out)
    requires { 8 ≤ out.old.spare }
    ensures appends { out.new.items ≡ out.old.items ++ to_be_bytes w64 number }
    ensures spare { out.new.spare + 8 ≡ out.old.spare }
{
    out.extend_reserved(&number.to_be_bytes());
}

// Containers, with their number before them.
#[tactic(auto, unfolding(crate::specs::Spelling::list_bytes))]
fn put_numbers(numbers: &Numbers, out: &mut Out)
    requires { 8194 ≤ out.old.spare }
    ensures appends { out.new.items
        ≡ out.old.items ++ list_bytes w16 (to_be_bytes w64) numbers.now }
    ensures spare { out.new.spare + length (list_bytes w16 (to_be_bytes w64) numbers.now)
        ≡ out.old.spare }
    ensures len { length (list_bytes w16 (to_be_bytes w64) numbers.now) ≤ 8194 }
{
    let numbers = numbers.as_slice();
    out.extend_reserved(&(numbers.len() as u16).to_be_bytes());
    put_each_number(numbers, out);
}

// Containers, one after the other.
fn put_each_number(numbers: &[u64], out: &mut Out)
    requires { 8 * length numbers.now ≤ out.old.spare }
    ensures appends { out.new.items ≡ out.old.items ++ flat_map (to_be_bytes w64) numbers.now }
    ensures spare { out.new.spare + length (flat_map (to_be_bytes w64) numbers.now)
        ≡ out.old.spare }
    ensures len { length (flat_map (to_be_bytes w64) numbers.now) ≡ 8 * length numbers.now }
{
    for number in numbers {
        put_long(*number, out);
    }
}

// One ask: priority, request id, count, resource and place.
#[tactic(auto, unfolding(crate::specs::Spelling::ask))]
fn put_ask(version: u8, wish: &Ask<RESOURCES>, out: &mut Out)
    requires { 105 ≤ out.old.spare }
    ensures appends { out.new.items ≡ out.old.items ++ ask (amounts_in version) wish.now }
    ensures spare { out.new.spare + length (ask (amounts_in version) wish.now) ≡ out.old.spare }
    ensures len { length (ask (amounts_in version) wish.now) ≤ 105 }
{
    let key = wish.key();
    out.extend_reserved(&key.priority.to_be_bytes());
    out.extend_reserved(&key.request.to_be_bytes());
    out.extend_reserved(&wish.count().to_be_bytes());
    put_amounts(version, &wish.resource(), out);
    put_text(&wish.place(), out);
}

// Asks, one after the other.
fn put_each_ask(version: u8, asks: &[Ask<RESOURCES>], out: &mut Out)
    requires { 105 * length asks.now ≤ out.old.spare }
    ensures appends { out.new.items ≡ out.old.items ++ flat_map (ask (amounts_in version)) asks.now }
    ensures spare { out.new.spare + length (flat_map (ask (amounts_in version)) asks.now)
        ≡ out.old.spare }
    ensures len { length (flat_map (ask (amounts_in version)) asks.now) ≤ 105 * length asks.now }
{
    for wish in asks {
        put_ask(version, wish, out);
    }
}

// Asks, with their number before them.
#[tactic(auto, unfolding(crate::specs::Spelling::list_bytes))]
fn put_asks(version: u8, asks: &Asks<RESOURCES>, out: &mut Out)
    requires { 26882 ≤ out.old.spare }
    ensures appends { out.new.items
        ≡ out.old.items ++ list_bytes w16 (ask (amounts_in version)) asks.now }
    ensures spare { out.new.spare + length (list_bytes w16 (ask (amounts_in version)) asks.now)
        ≡ out.old.spare }
    ensures len { length (list_bytes w16 (ask (amounts_in version)) asks.now) ≤ 26882 }
{
    let asks = asks.as_slice();
    out.extend_reserved(&(asks.len() as u16).to_be_bytes());
    put_each_ask(version, asks, out);
}

// Property lines, with how many bytes they are before them.
#[tactic(auto, unfolding(crate::specs::Spelling::list_bytes))]
fn put_lines(lines: &SettingsText, out: &mut Out)
    requires { 65530 ≤ out.old.spare }
    ensures appends { out.new.items ≡ out.old.items ++ list_bytes w32 byte lines.now }
    ensures spare { out.new.spare + length (list_bytes w32 byte lines.now) ≡ out.old.spare }
    ensures len { length (list_bytes w32 byte lines.now) ≤ 65530 }
{
    let lines = lines.as_slice();
    out.extend_reserved(&(lines.len() as u32).to_be_bytes());
    out.extend_reserved(lines);
}

// A number, a response id and containers.
fn put_report(number: u64, response: u32, ended: &Numbers, out: &mut Out)
    requires { 8206 ≤ out.old.spare }
    ensures appends { out.new.items ≡ out.old.items ++ (to_be_bytes w64 number
        ++ (to_be_bytes w32 response ++ list_bytes w16 (to_be_bytes w64) ended.now)) }
    ensures spare { out.new.spare + length (to_be_bytes w64 number
        ++ (to_be_bytes w32 response ++ list_bytes w16 (to_be_bytes w64) ended.now))
        ≡ out.old.spare }
    ensures len { length (to_be_bytes w64 number
        ++ (to_be_bytes w32 response ++ list_bytes w16 (to_be_bytes w64) ended.now)) ≤ 8206 }
{
    put_long(number, out);
    out.extend_reserved(&response.to_be_bytes());
    put_numbers(ended, out);
}

// What follows the head of a request.
fn put_request_body(version: u8, request: &Request<RESOURCES>, out: &mut Out)
    requires { REQUEST_ROOM ≤ out.old.spare + 6 }
    ensures appends { out.new.items ≡ out.old.items ++ request_body version request.now }
    ensures spare { out.new.spare + length (request_body version request.now) ≡ out.old.spare }
    ensures room { 6 + length (request_body version request.now) ≤ REQUEST_ROOM }
{
    match request {
        Request::Submit { path, user } => {
            put_text(path, out);
            put_text(user, out);
        }
        Request::RegisterMaster { app } | Request::FinishMaster { app } => put_long(*app, out),
        Request::Allocate {
            app,
            response,
            asks,
            releases,
        } => {
            put_long(*app, out);
            out.extend_reserved(&response.to_be_bytes());
            put_asks(version, asks, out);
            put_numbers(releases, out);
        }
        Request::RegisterNode { host, rack, total } => {
            put_text(host, out);
            put_text(rack, out);
            put_amounts(version, total, out);
        }
        Request::Heartbeat {
            node,
            response,
            ended,
        } => put_report(*node, *response, ended, out),
        Request::NodeGone { node } => put_long(*node, out),
        Request::QueueInfo { path } => put_text(path, out),
        Request::SetQueueState { path, running } => {
            put_text(path, out);
            out.extend_reserved(&[*running as u8]);
        }
        Request::ClusterInfo => {}
        Request::Refresh { text } => put_lines(text, out),
    }
}

/// Appends the one spelling of a request under this head: `read_request` reads it again. The version is 1 or 2, the request has a
/// spelling in it (`has_spelling`), and `REQUEST_ROOM` bytes of `out` are free. It takes no memory and cannot fail; what `out`
/// held stays.
pub fn write_request(head: Head, request: &Request<RESOURCES>, out: &mut Out)
    requires version { is_version resources head.version ≡ true }
    requires fits { FitsRequest head.version request.now }
    requires room { REQUEST_ROOM ≤ out.old.spare }
    ensures appends { out.new.items ≡ out.old.items ++ request_bytes head request.now }
    ensures spare { out.new.spare + length (request_bytes head request.now) ≡ out.old.spare }
    ensures spells { IsRequest (request_bytes head request.now) head request.now }
    ensures some { 0 < length (request_bytes head request.now) }
    ensures room { length (request_bytes head request.now) ≤ REQUEST_ROOM }
{
    put_head(head.version, kind(request), head.call_id, out);
    put_request_body(head.version, request, out);
}
