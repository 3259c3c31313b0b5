//! The kinds that conditions read fields by.

ghost use Rattle.std.specs.Prelude.{◌≡◌};
ghost use Rattle.flow_table.specs.Plans as plans;

use element_registry::{ElementKind, Elements};
use flow_table::context_kind;
use ipfix_elements::{Kind, Width};
use ipfix_wire::ElementId;

/// The kind that an element's fields are read by, as those of a key are.
pub fn key_kind(elements: &Elements, element: ElementId) -> Kind
    ensures { result ≡ plans.key_kind elements.now element }
{
    match context_kind(element) {
        Some(kind) => kind,
        None => field_kind(elements.kind_of(element)),
    }
}

fn field_kind(kind: ElementKind) -> Kind
    ensures { result ≡ plans.field_kind kind }
{
    match kind {
        ElementKind::Plain(kind) => kind,
        ElementKind::Boolean => Kind::Unsigned(Width::One),
        ElementKind::Signed(_) | ElementKind::Micros | ElementKind::Nanos | ElementKind::Text =>
            Kind::Octets,
    }
}
