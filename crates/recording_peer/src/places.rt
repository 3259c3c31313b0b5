//! What keeps a peer's place, where there is no room for one more.

ghost use Rattle.std.specs.Prelude.{◌≡◌, ◌-◌, nat_lt, sum_by};
ghost use Rattle.recording_peer.specs.Places.{fields_for, fields_in, fields_left, has_record, has_template, listed};

use crate::peer_recorder::PeerRecorder;
use ipfix_message::{DOMAIN_FIELDS, Templates, count_of};

impl PeerRecorder {
    /// Whether a template of the peer is in force over UDP in one of its domains
    /// ([`has_template_in_force`](crate::laws::has_template_in_force)).
    pub fn has_template(&self) -> bool
        ensures { result ≡ has_template self.now }
    {
        for (domain, weight) in self.known.weights.iter() {
            if self.has_fields_left(*domain, *weight) {
                return true;
            }
        }
        false
    }

    // Whether a domain counts more than itself and the templates of its ids that have none.
    fn has_fields_left(&self, domain: u32, weight: u64) -> bool
        ensures { result ≡ nat_lt 0 (fields_left self.now (domain, weight)) }
    {
        let files = self.recorder.domains().templates(domain);
        let ended = self.known.withdrawn.get(&domain);
        let own = weight.saturating_sub(DOMAIN_FIELDS);
        0 < without_those(own, files, ended, self.known.barred_in(domain))
    }

    /// Whether a data record of the peer was read.
    pub fn has_record(&self) -> bool
        ensures { result ≡ has_record self.now }
    {
        self.advances.has_records()
    }
}

// What the template of an id counts, if there is one.
fn fields_in(templates: Option<&Templates>, id: u16) -> u64
    ensures { result ≡ fields_in (listed templates.entry) id }
{
    let Some(templates) = templates else {
        return 0;
    };
    match templates.get(&id) {
        Some(known) => count_of(known.template()),
        None => 0,
    }
}

// What is left of a count without the templates of these ids.
fn without_those(
    count: u64,
    files: Option<&Templates>,
    ended: Option<&Templates>,
    ids: &[u16],
) -> u64
    ensures { result ≡ count
        - sum_by (fields_for (listed files.entry) (listed ended.entry)) ids.now }
{
    let mut left = count;
    for id in ids {
        left = left
            .saturating_sub(fields_in(files, *id))
            .saturating_sub(fields_in(ended, *id));
    }
    left
}
