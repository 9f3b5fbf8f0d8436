// The job of a request whose input is to be recovered.
ghost use Rattle.smithy_json.specs.views.JsonView.{view};
ghost use Rattle.smithy_job.specs.Recovering.{recovering};
ghost use Rattle.smithy_job.specs.views.RecoveringView.{IsRecovering};
ghost use Rattle.smithy_job.specs.views.Tables.{ReadsAs};

use crate::reading::schema_asked;
use crate::request::request_of;
use crate::settings::{endpoint_of, omit_of};
use smithy_http::Request;
use smithy_json::JsonValue;
use smithy_model::{Asked, Floats, JobError, ModelTable};
use smithy_schema::{SchemaIndex, Schemas};
use smithy_serde::OmitFlags;
use std::alloc::Global;

/// A request whose input is to be recovered, and the index of the input's schema in a table.
#[derive(Drop)]
pub struct Recovering<'t> {
    pub request: Request,
    pub table: Schemas,
    pub index: SchemaIndex,
    pub endpoint: &'t str,
    pub omit: OmitFlags,
}

/// The job of a request that a JSON value is. Takes memory. What hasn't the form of one is no job.
#[tactic(auto, unfolding(crate::specs::Recovering::recovering))]
pub fn read_recovering<'t>(alloc: Global, job: &JsonValue<'t>) -> Result<Recovering<'t>, JobError>
    ensures { ReadsAs IsRecovering (recovering (view job.now)) result }
{
    let request = request_of(alloc, job)?;
    let Some(endpoint) = endpoint_of(job) else {
        return Err(JobError::NoJob);
    };
    let Some(omit) = omit_of(job) else {
        return Err(JobError::NoJob);
    };
    let ModelTable { table, index, .. } = schema_asked(alloc, job, Asked::Input, Floats::Kept)?;
    Ok(Recovering {
        request,
        table,
        index,
        endpoint,
        omit,
    })
}
