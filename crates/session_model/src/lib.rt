//! What a session means, as definitions: how bytes are cut into requests, what a request asks for, what the machine of
//! one thread replies, how a reply is spelled, and when one history explains what all clients were told.
#![tactic(auto)]

mod statement;

ghost use Rattle.session_model.specs.Laws.{ExplainedAreRuns, RepliesAreReadBack, RequestsMeanOne, RunsAreExplained};

pub use statement::{Refusal, Statement};

/// A request that took a moment asks for one thing.
pub fn requests_mean_one()
    ensures { RequestsMeanOne }
{
    line_protocol::one_reading();
    influxql_parser::one_deletion();
}

/// What a client is answered by the machine, one request after another, has a history that explains it.
pub fn runs_are_explained()
    ensures { RunsAreExplained }
{}

/// A history that explains what one client was told is that of a run of the machine.
pub fn explained_are_runs()
    ensures { ExplainedAreRuns }
{}

/// No two lists of replies have one text, so a transcript tells its replies.
pub fn replies_are_read_back()
    ensures { RepliesAreReadBack }
{
    requests_mean_one();
}
