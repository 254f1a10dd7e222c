//! A request of a site.

ghost use Rattle.std.specs.Prelude.{◌≡◌, IfOk};
ghost use Rattle.wire.specs.declared.request.Request.TheVariants.{Change};
ghost use Rattle.room_core.specs.steps.SiteRequests.{request_in};

use base_types::{NoMemory, OpName, StateVector};
use rules::{Body, Op, SharedOp};
use std::alloc::Global;
use std::marker::Model;
use wire::Request;

/// How a request is held. Small, so that it moves at little cost.
#[derive(Drop)]
pub(crate) enum Form {
    /// The request for an operation, which is stored as a record holds it.
    Operation(SharedOp),
    /// Any other request, and one for an operation whose number is out of range.
    Other(u32, Box<Request>),
}

/// A request of a site, for `RoomState::answer`. It has the memory for its operation already, so that
/// a room behind a lock needs less time for the answer. Contracts see the site and the request.
pub struct SiteRequest {
    form: Form,
}

impl Drop for SiteRequest {
    fn drop(self) {
        let SiteRequest { form: _ } = self;
    }
}

impl Model for SiteRequest {
    ghost use Rattle.room_core.specs.steps.SiteRequests.{request_in, SiteRequest};

    ghost Value = { SiteRequest };

    ghost view = { λ asked. request_in asked.form };
}

impl SiteRequest {
    /// A request of this site, which need not have joined.
    ///
    /// # Errors
    ///
    /// `NoMemory` if an allocation failed.
    pub fn new(alloc: Global, site: u32, request: Request) -> Result<SiteRequest, NoMemory>
        ensures site { IfOk result (λ asked. asked.site ≡ site) }
        ensures request { IfOk result (λ asked. asked.request ≡ request) }
    {
        let form = match request {
            Request::Change { seq, seen, body } => change(alloc, site, seq, seen, body)?,
            request => Form::Other(site, Box::new(alloc, request)?),
        };
        Ok(SiteRequest { form })
    }

    /// How it is held.
    pub(crate) fn into_form(self) -> Form
        ensures { request_in result ≡ self }
    {
        let SiteRequest { form } = self;
        form
    }
}

/// A request of this site for an operation.
fn change(
    alloc: Global,
    site: u32,
    seq: u32,
    seen: StateVector,
    body: Body,
) -> Result<Form, NoMemory>
    ensures site { IfOk result (λ form. (request_in form).site ≡ site) }
    ensures request { IfOk result (λ form. (request_in form).request ≡ Change seq seen body) }
{
    let Some(name) = OpName::new(site, seq) else {
        let request = Request::Change { seq, seen, body };
        return Ok(Form::Other(site, Box::new(alloc, request)?));
    };
    Ok(Form::Operation(SharedOp::new(alloc, Op { name, seen, body })?))
}
