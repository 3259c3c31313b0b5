//! What the templates of a session count, beside a limit.

ghost use Rattle.std.specs.Prelude.{◌≡◌, ◌+◌, ◌<◌, IfNone, IfSome};
ghost use Rattle.std.specs.BTreeMap.{IsOrdered};
ghost use Rattle.std.specs.Ordering.{nat_cmp};
ghost use Rattle.ipfix_message.specs.Domains.{History, StandsFor};
ghost use Rattle.ipfix_message.specs.Kept.{kept};
ghost use Rattle.ipfix_message.specs.TemplateLimits.{TellsWithin, fields_kept, fields_of};

use crate::in_force::Templates;
use crate::record::Template;
use indexmap::IndexMap;

/// What a template counts beside its field specifiers.
pub const TEMPLATE_FIELDS: u64 = 8;

/// What a domain counts beside its templates.
pub const DOMAIN_FIELDS: u64 = 16;

/// What a template counts.
pub fn count_of(template: &Template) -> u64
    ensures { result ≡ fields_of template.now }
{
    TEMPLATE_FIELDS + template.specs.as_slice().len() as u64
}

// What is left of a limit beside the templates of a domain, if they count no more than that.
fn left_beside(templates: &Templates, limit: u64) -> Option<u64>
    ensures above { IfNone result (limit < fields_kept templates.now) }
    ensures left { IfSome result (λ left. fields_kept templates.now + left ≡ limit) }
    ensures ordered { IsOrdered nat_cmp templates.now }
{
    let counted = templates.values();
    let mut left = limit.checked_sub(DOMAIN_FIELDS)?;
    for known in counted {
        left = left.checked_sub(count_of(known.template()))?;
    }
    Some(left)
}

/// Whether the templates of all domains count no more than a limit.
pub fn are_within(known: &IndexMap<u32, Templates>, limit: u64) -> bool
    ensures { (ds : History) → StandsFor (kept known.now.entries) ds
        → TellsWithin result limit ds }
{
    let mut left = limit;
    for (_, templates) in known.iter() {
        match left_beside(templates, left) {
            Some(less) => left = less,
            None => return false,
        }
    }
    true
}
