//! Which requests have a spelling in a version (`has_spelling`).
ghost use Rattle.std.specs.Prelude.{◌≡◌, ◌<◌, ◌^◌, ◌↔◌, true};
ghost use Rattle.std.specs.List.{AllByRecursion};
ghost use Rattle.cap_base.specs.Limits.{asks_max, numbers_max, resources, text_max};
ghost use Rattle.cap_base.specs.Texts.{is_text};
ghost use Rattle.cap_vector.specs.Vector.{amount_max};
ghost use Rattle.cap_grammar.specs.Shown.{IsShownVector};
ghost use Rattle.cap_grammar.specs.Spelling.{FitsAsk, FitsByte, FitsListed, FitsNumber, FitsRequest};
ghost use Rattle.cap_grammar.specs.Texts.{is_host, is_rack};
ghost use Rattle.cap_grammar.specs.Versions.{amounts_in};

use crate::head::VERSION_1;
use crate::texts::{host_from, rack_from};
use cap_base::{RESOURCES, ShortText, Text};
use cap_model::{Ask, Asks, Numbers, Request, SettingsText};
use cap_vector::Resource;

// The bounds that a text has by its type.
fn text_fits<const MAX: usize>(text: &Text<MAX>)
    ensures { is_text MAX text.now ≡ true }
{
    let _bytes = text.as_bytes();
}

// The bounds that numbers have by their type.
fn each_number_fits(numbers: &[u64])
    ensures { AllByRecursion FitsNumber numbers.now }
{}

// The bounds that bytes have by their type.
fn each_byte_fits(bytes: &[u8])
    ensures { AllByRecursion FitsByte bytes.now }
{}

// The bounds that containers have by their type.
fn numbers_fit(numbers: &Numbers)
    ensures { FitsListed numbers_max FitsNumber numbers.now }
{
    each_number_fits(numbers.as_slice());
}

// The bounds that a number has by its type.
fn number_fits(number: u64)
    ensures { FitsNumber number }
{}

// The bounds that a number, a response id and containers have by their types.
fn report_fits(number: u64, response: u32, containers: &Numbers)
    ensures number { FitsNumber number }
    ensures response { response < 2 ^ 32 }
    ensures containers { FitsListed numbers_max FitsNumber containers.now }
{
    numbers_fit(containers);
}

// The bounds that property lines have by their type.
fn lines_fit(lines: &SettingsText)
    ensures { FitsListed text_max FitsByte lines.now }
{
    each_byte_fits(lines.as_slice());
}

// Whether a version spells all of these amounts that are not 0.
fn are_shown(version: u8, amounts: &Resource<RESOURCES>) -> bool
    ensures { result ≡ true ↔ IsShownVector resources (amounts_in version) amount_max amounts.now }
{
    let [_, _, gpus] = amounts.amounts();
    version != VERSION_1 || gpus == 0
}

// Whether an ask has a spelling.
fn is_ask_shown(version: u8, ask: &Ask<RESOURCES>) -> bool
    ensures { result ≡ true ↔ FitsAsk resources (amounts_in version) ask.now }
{
    let _numbers = (ask.key(), ask.count());
    text_fits(&ask.place());
    are_shown(version, &ask.resource())
}

// Whether each of these asks has a spelling.
fn is_each_ask_shown(version: u8, asks: &[Ask<RESOURCES>]) -> bool
    ensures { result ≡ true ↔ AllByRecursion (FitsAsk resources (amounts_in version)) asks.now }
{
    for ask in asks {
        if !is_ask_shown(version, ask) {
            return false;
        }
    }
    true
}

// Whether asks have a spelling.
fn are_asks_shown(version: u8, asks: &Asks<RESOURCES>) -> bool
    ensures { result ≡ true
        ↔ FitsListed asks_max (FitsAsk resources (amounts_in version)) asks.now }
{
    is_each_ask_shown(version, asks.as_slice())
}

// Whether a text may be the host of a node, and another one its rack.
fn are_host_and_rack(host: &ShortText, rack: &ShortText) -> bool
    ensures { result ≡ true ↔ (is_host host.now ≡ true) × (is_rack rack.now ≡ true) }
{
    host_from(host.as_bytes()).is_ok() && rack_from(rack.as_bytes()).is_ok()
}

/// Whether a request has a spelling in this version. It has none where the host or the rack of a RegisterNode could not be read
/// again, and in version 1 where an amount of GPUs is not 0.
pub fn has_spelling(version: u8, request: &Request<RESOURCES>) -> bool
    ensures { result ≡ true ↔ FitsRequest version request.now }
{
    match request {
        Request::Submit { path, user } => {
            text_fits(path);
            text_fits(user);
        }
        Request::Allocate {
            app,
            response,
            asks,
            releases,
        } => {
            report_fits(*app, *response, releases);
            return are_asks_shown(version, asks);
        }
        Request::RegisterNode { host, rack, total } => {
            return are_host_and_rack(host, rack) && are_shown(version, total);
        }
        Request::Heartbeat {
            node,
            response,
            ended,
        } => report_fits(*node, *response, ended),
        Request::QueueInfo { path } | Request::SetQueueState { path, .. } => text_fits(path),
        Request::Refresh { text } => lines_fit(text),
        Request::RegisterMaster { app: number }
        | Request::FinishMaster { app: number }
        | Request::NodeGone { node: number } => number_fits(*number),
        Request::ClusterInfo => {}
    }
    true
}
