//! The connection of a sample.

ghost use Rattle.std.specs.Prelude.{◌≡◌, ◌<◌, ◌≤◌, ◌++◌, ◌∷◌, [], IfOk, OnOk, codes, string_bytes};
ghost use Rattle.script_text.specs.script.Script.{OpensOnce, AreFilled};
ghost use Rattle.ldap_msg.specs.ldap_filter.filter.Filters.Filter.{Present};
ghost use Rattle.script_text.specs.declared.event.ScriptEvent.TheVariants.{Opened, Bytes};
ghost use Rattle.ldap_msg.specs.reading.Messages.{request_octets, HasOwnTag};
ghost use Rattle.sample_input.specs.SampleFile.{person_name};
ghost use Rattle.sample_input.specs.SampleEvents.{sample_bind, sample_search, sample_events};

use crate::file::person_name;
use ldap_msg::ldap_filter::{Filter, Node};
use ldap_msg::{Auth, BindRequest, Message, Request, SearchRequest, SearchScope, put_request};
use script_text::ScriptEvent;
use script_text::plain_values::{Octets, OneOrMany};
use std::alloc::{AllocError, Global};

/// The number of the connection.
const CONNECTION: u32 = 1;

// The bind as nobody.
fn sample_bind(alloc: Global) -> Message
    ensures { result ≡ sample_bind }
{
    let bind = BindRequest {
        version: 3,
        name: Octets::from_vec(Vec::new(alloc)),
        auth: Auth::Simple(Octets::from_vec(Vec::new(alloc))),
    };
    Message {
        id: 1,
        request: Request::Bind(bind),
        controls: OneOrMany::from_vec(Vec::new(alloc)),
    }
}

// That an attribute of the name is there.
fn presence(alloc: Global) -> Result<Filter, AllocError>
    ensures { IfOk result (λ filter. filter ≡ Present (codes "objectClass")) }
{
    let kind = Octets::from_vec(b"objectClass".to_vec(alloc)?);
    Ok(Filter {
        node: Node::Present(kind),
    })
}

// The search for a person of this name.
fn sample_search(alloc: Global, number: u32, name: String, filter: Filter) -> Message
    requires fits { number < 2000000000 }
    requires name { string_bytes name ≡ person_name number }
    requires filter { filter ≡ Present (codes "objectClass") }
    ensures { result ≡ sample_search number }
{
    let search = SearchRequest {
        base: Octets::from_vec(name.into_bytes()),
        scope: SearchScope::BaseObject,
        size: 0,
        kinds_only: false,
        filter,
        selection: OneOrMany::from_vec(Vec::new(alloc)),
    };
    Message {
        id: number + 1,
        request: Request::Search(search),
        controls: OneOrMany::from_vec(Vec::new(alloc)),
    }
}

// The event of a message.
fn event_of(alloc: Global, message: &Message) -> Result<ScriptEvent, AllocError>
    requires { HasOwnTag message.now.request }
    ensures { IfOk result (λ event. event ≡ Bytes 1 (request_octets message.now)) }
{
    let mut octets = Vec::new(alloc);
    put_request(&mut octets, message)?;
    Ok(ScriptEvent::Bytes(CONNECTION, Octets::from_vec(octets)))
}

// The event of the bind.
fn bind_event(alloc: Global) -> Result<ScriptEvent, AllocError>
    ensures { IfOk result (λ event. event ≡ Bytes 1 (request_octets sample_bind)) }
{
    let message = sample_bind(alloc);
    event_of(alloc, &message)
}

// The events without persons.
#[tactic(auto, unfolding(crate::specs::SampleEvents::sample_events))]
fn without_persons(alloc: Global) -> Result<Vec<ScriptEvent>, AllocError>
    ensures { IfOk result (λ events. events.items ≡ sample_events 0) }
{
    let bind = bind_event(alloc)?;
    let mut events = Vec::new(alloc);
    events.push(ScriptEvent::Opened(CONNECTION))?;
    events.push(bind)?;
    Ok(events)
}

// The event of the search for a person.
fn search_event(alloc: Global, number: u32) -> Result<ScriptEvent, AllocError>
    requires fits { number < 2000000000 }
    ensures { IfOk result (λ event. event ≡ Bytes 1 (request_octets (sample_search number))) }
{
    let name = person_name(alloc, number)?;
    let filter = presence(alloc)?;
    let message = sample_search(alloc, number, name, filter);
    event_of(alloc, &message)
}

// Appends the event of the search for a person.
fn push_search(alloc: Global, events: &mut Vec<ScriptEvent>, number: u32) -> Result<(), AllocError>
    requires fits { number < 2000000000 }
    ensures ok { OnOk result (
        events.new.items ≡ events.old.items ++ Bytes 1 (request_octets (sample_search number)) ∷ []) }
{
    let event = search_event(alloc, number)?;
    events.push(event)?;
    Ok(())
}

// Appends the events of the searches for so many persons.
#[tactic(auto, unfolding(crate::specs::SampleEvents::sample_events))]
fn push_searches(alloc: Global, events: &mut Vec<ScriptEvent>, count: u32) -> Result<(), AllocError>
    requires few { count ≤ 20000 }
    requires none { events.old.items ≡ sample_events 0 }
    ensures ok { OnOk result (events.new.items ≡ sample_events count) }
{
    for done in 0..count {
        push_search(alloc, events, done + 1)?;
    }
    Ok(())
}

/// The events of a sample of so many persons. No number is opened twice, and no octets are empty. The error comes for want
/// of memory alone.
#[tactic(auto, using(crate::proofs::events::EventLemmas::sample_once, crate::proofs::events::EventLemmas::sample_filled))]
pub fn sample_events(alloc: Global, count: u32) -> Result<Vec<ScriptEvent>, AllocError>
    requires few { count ≤ 20000 }
    ensures exact { IfOk result (λ events. events.items ≡ sample_events count) }
    ensures once { IfOk result (λ events. OpensOnce events.items) }
    ensures filled { IfOk result (λ events. AreFilled events.items) }
{
    let mut events = without_persons(alloc)?;
    push_searches(alloc, &mut events, count)?;
    Ok(events)
}
