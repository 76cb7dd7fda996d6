// A client that is served beside others.
ghost use Rattle.std.specs.Prelude.{◌≡◌, None};

use history_turn::Pass;
use session_io::{Client, Report};
use shard_shared::Engine;

/// A client, its report once it was served, and its pass while it is. Outside of this crate it has no pass.
pub struct Seated<S, K, C, P> {
    pub client: Client<S, K, C>,
    pub report: Option<Report>,
    pub(crate) pass: Option<P>,
}

/// A client that is served over an engine on a disk of this type.
pub type EngineClient<S, K, C, D> = Seated<S, K, C, Pass<Engine<D>>>;

impl<S, K, C, P> Seated<S, K, C, P> {
    /// A client that is to be served.
    pub fn new(client: Client<S, K, C>) -> Seated<S, K, C, P>
        ensures { result ≡ record { client = client; report = None; pass = None } }
    {
        Seated {
            client,
            report: None,
            pass: None,
        }
    }

    /// The client, with its report where it was served.
    pub fn into_parts(self) -> (Client<S, K, C>, Option<Report>)
        requires { self.pass ≡ None }
        ensures { result ≡ (self.client, self.report) }
    {
        let Seated {
            client,
            report,
            pass,
        } = self;
        match pass {
            None => (client, report),
            Some(_) => unreachable!(),
        }
    }
}
