//! Requests whose packages are published for readers of other threads.
ghost use Rattle.std.specs.Prelude.{◌≡◌, ◌≤◌, None, IfOk, OnOk, OnErr};
ghost use Rattle.round_nodes.specs.TurnCounts.{turns_of};
ghost use Rattle.loader_commands.specs.Commands.{load};
ghost use Rattle.loader_commands.specs.Refusals.{request_refusal};
ghost use Rattle.loader_commands.specs.View.{request_seen, texts_seen};
ghost use Rattle.shelf.specs.Lists.{version_of};
ghost use Rattle.shelf.specs.Shelves.{published_by, shelf_of};
ghost use Rattle.loader_answers.specs.Effects.{StopsAfter, StopsRequest, request_roots};
ghost use Rattle.loader.specs.RequestCalls.{IsReplyTo, RunsRequest};
ghost use Rattle.loader.specs.PublishingCalls.{AreEntriesOf, IsReplyToLoad, KeepsHistory, KeepsShown, PublishesLoad, RunsLoad, ShowsLoad};
ghost use Rattle.loader_answers.specs.Sessions.{IsConsistent};

use super::{Reply, Session};
use base_types::Text;
use loader_answers::{package_keys, packages_reply};
use loader_commands::{Request, refusal};
use round::Stop;
use shelf::{Keeper, Told};
use std::sync::Wait;

impl Session {
    /// Replies to a request as `request` does, and publishes the packages of a load that is not refused. There is one
    /// entry for each distinct name, all at the present version. Its text is the JSON of that package. Then it returns
    /// what readers may learn. Other requests publish nothing.
    ///
    /// Returns `Budget` if the budget of turns is spent; then nothing is published. Returns `Memory` if an allocation
    /// fails. Then nothing is shown to readers, and the publish may be taken up: a later one shows it.
    pub fn request_published<R: Wait + Drop>(
        &mut self,
        request: &Request<'_>,
        keeper: &mut Keeper<R>,
        budget: u64,
    ) -> Result<(Reply, Option<Told>), Stop>
        requires { version_of (published_by keeper.old) ≤ self.old.graph.version }
        ensures text { IfOk result (λ r. IsReplyTo request.now self.old r.0) }
        ensures moves { IfOk result (λ r. RunsRequest request.now self.old self.new r.0) }
        ensures turns { IfOk result (λ r. turns_of r.0.runs.items ≤ budget) }
        ensures stopped { OnErr result (StopsRequest (request_seen request.now) self.old self.new) }
        ensures session { KeepsHistory self.old self.new }
        ensures shelf { shelf_of keeper.new ≡ shelf_of keeper.old }
        ensures published { OnOk result (PublishesLoad request.now self.old keeper.old keeper.new) }
        ensures told { IfOk result (λ r. ShowsLoad request.now r.1 keeper.old keeper.new) }
        ensures refused { OnErr result (KeepsShown request.now self.old keeper.old keeper.new) }
    {
        let Request::Load(names) = request else {
            return Ok((self.request(request, budget)?, None));
        };
        if refusal(self.alloc, request)?.is_some() {
            return Ok((self.request(request, budget)?, None));
        }
        let (reply, entries) = self.load(names.as_slice(), budget)?;
        let told = keeper.publish(u64::from(self.version()), entries)?;
        Ok((reply, Some(told)))
    }

    // Replies to a load that is not refused, and returns the entries that it publishes too.
    fn load(&mut self, names: &[&str], budget: u64) -> Result<(Reply, Vec<(Text, Text)>), Stop>
        requires { request_refusal (load (texts_seen names.now)) ≡ None }
        ensures text { IfOk result (λ r. IsReplyToLoad names.now self.old r.0) }
        ensures entries { IfOk result (λ r. AreEntriesOf names.now self.old r.1.items) }
        ensures moves { IfOk result (λ r. RunsLoad names.now self.old self.new r.0) }
        ensures turns { IfOk result (λ r. turns_of r.0.runs.items ≤ budget) }
        ensures stopped { OnErr result
            (StopsAfter (request_roots (load (texts_seen names.now))) self.old self.new) }
        ensures history { (self.new.began ≡ self.old.began) × (self.new.edits ≡ self.old.edits) }
        ensures version { self.new.graph.version ≡ self.old.graph.version }
        ensures lawful { IsConsistent self.new }
    {
        let roots = package_keys(self.alloc, names)?;
        let runs = self.settle(roots.as_slice(), budget)?;
        let told = packages_reply(self.alloc, &self.graph, names)?;
        let reply = Reply {
            text: told.line,
            runs,
        };
        Ok((reply, told.entries))
    }
}
