//! What a session knows beside a record: whose it is, and its observation domain.

ghost use Rattle.std.specs.Prelude.{◌≡◌, ◌≤◌, ◌++◌, length, map, IfOk, OnOk};
ghost use Rattle.flow_collect.specs.Contexts.{alone, nothing_known, context_fields, exporter_at, exporter_fields, limits_in, mapped, named};

use exporter_options::Wanted;
use flow_estimates::Estimates;
use flow_filter::Filter;
use flow_maps::Maps;
use flow_table::{
    Context, EXPORTER, EXPORTER_IPV4_ADDRESS, EXPORTER_IPV6_ADDRESS, OBSERVATION_DOMAIN_ID,
};
use flow_times::TimeNoting;
use ipfix_message::Fields;
use ipfix_session::{READ_LIMIT, SessionLimits};
use ipfix_wire::ElementId;
use std::alloc::{AllocError, Global};
use std::collections::VecDeque;
use std::net::IpAddr;

/// The address of the exporter that a session is of.
#[derive(Clone, Copy, Debug, PartialEq, Eq)]
pub enum Exporter {
    /// An IPv4 address.
    Ipv4([u8; 4]),
    /// An IPv6 address that is no IPv4-mapped one.
    Ipv6([u8; 16]),
}

impl Exporter {
    /// The exporter at an address. An IPv4-mapped IPv6 address (RFC 4291, section 2.5.5.2) is the IPv4 address
    /// in it.
    pub fn at(address: IpAddr) -> Exporter
        ensures { result ≡ exporter_at address }
    {
        match address {
            IpAddr::V4(address) => Exporter::Ipv4(address.octets()),
            IpAddr::V6(address) => match address.to_ipv4_mapped() {
                Some(mapped) => Exporter::Ipv4(mapped.octets()),
                None => Exporter::Ipv6(address.octets()),
            },
        }
    }
}

/// What a session knows beside a record.
#[derive(Clone, Copy, Debug)]
pub struct SessionContext<'a> {
    /// Whose session it is, if that is known.
    pub exporter: Option<Exporter>,
    /// Which elements are wanted of it.
    pub wanted: Context,
    /// What is wanted of what its options records tell.
    pub options: Wanted,
    /// The keys whose values are numbers of maps, if there are some.
    pub maps: Option<&'a Maps>,
    /// Which estimates of counters are wanted, if some are. They are by the rates that `options` asks for.
    pub estimates: Option<&'a Estimates>,
    /// Whether nothing is collected if a record that counts was sampled, by the rates that `options` asks for.
    pub refuses_sampled: bool,
    /// What is noted of the times of the records that count.
    pub times: TimeNoting,
    /// The counters of which it is told whether a record that counts has one above 2^63, if that is told.
    pub great_counters: Option<&'a [ElementId]>,
    /// What the templates of the session may count, if they have a limit: 8 each and its field specifiers, and 16 each
    /// domain. A message after which they would count more ends the session.
    pub templates: Option<u64>,
}

/// No elements of context.
pub const NOTHING_WANTED: Context = Context {
    exporter: false,
    exporter_ipv4_address: false,
    exporter_ipv6_address: false,
    observation_domain_id: false,
};

/// That of which nothing is wanted.
pub fn no_context<'a>() -> SessionContext<'a>
    ensures { result ≡ nothing_known }
{
    SessionContext {
        exporter: None,
        wanted: NOTHING_WANTED,
        options: exporter_options::NOTHING_WANTED,
        maps: None,
        estimates: None,
        refuses_sampled: false,
        times: TimeNoting::Nothing,
        great_counters: None,
        templates: None,
    }
}

impl<'a> SessionContext<'a> {
    /// How often its session reads at most, and what the templates may count.
    pub fn limits(&self) -> SessionLimits
        ensures { result ≡ limits_in self.now }
    {
        SessionLimits {
            reads: READ_LIMIT,
            templates: self.templates,
        }
    }

    /// The wanted fields of the records of an observation domain.
    pub fn fields(&self, alloc: Global, domain: u32) -> Result<Fields, AllocError>
        ensures { IfOk result (λ f. f ≡ context_fields self.now domain) }
    {
        let mut fields = Fields::new(alloc);
        if let Some(exporter) = self.exporter {
            append_exporter(&self.wanted, exporter, &mut fields)?;
        }
        append_named(
            self.wanted.observation_domain_id,
            OBSERVATION_DOMAIN_ID,
            &domain.to_be_bytes(),
            &mut fields,
        )?;
        Ok(fields)
    }
}

// Appends the wanted fields of an exporter.
fn append_exporter(
    wanted: &Context,
    exporter: Exporter,
    fields: &mut Fields,
) -> Result<(), AllocError>
    ensures { OnOk result (fields.new ≡ fields.old ++ exporter_fields wanted.now exporter) }
{
    match exporter {
        Exporter::Ipv4(address) => {
            append_named(wanted.exporter, EXPORTER, &mapped_octets(address), fields)?;
            append_named(
                wanted.exporter_ipv4_address,
                EXPORTER_IPV4_ADDRESS,
                &address,
                fields,
            )
        }
        Exporter::Ipv6(address) => {
            append_named(wanted.exporter, EXPORTER, &address, fields)?;
            append_named(
                wanted.exporter_ipv6_address,
                EXPORTER_IPV6_ADDRESS,
                &address,
                fields,
            )
        }
    }
}

// Appends a field if it is wanted.
fn append_named(
    is_wanted: bool,
    element: ElementId,
    octets: &[u8],
    fields: &mut Fields,
) -> Result<(), AllocError>
    requires { length octets.now ≤ 16 }
    ensures { OnOk result (fields.new ≡ fields.old ++ named is_wanted element octets.now) }
{
    if is_wanted {
        fields.push(element, octets)?;
    }
    Ok(())
}

// An IPv4 address mapped into IPv6.
fn mapped_octets(address: [u8; 4]) -> [u8; 16]
    ensures { result ≡ mapped address }
{
    let [a, b, c, d] = address;
    [0, 0, 0, 0, 0, 0, 0, 0, 0, 0, 255, 255, a, b, c, d]
}

/// A source, what its session knows beside a record, and which of its records count.
#[derive(Drop)]
pub struct InContext<'a, S> {
    pub source: S,
    pub context: SessionContext<'a>,
    /// Which records count, by their own fields and those of the context. Without a filter all do.
    pub filter: Option<&'a Filter>,
}

/// The sources, each in no context and without a filter.
pub fn in_no_context<'a, S: Drop>(
    alloc: Global,
    sources: Vec<S>,
) -> Result<Vec<InContext<'a, S>>, AllocError>
    ensures { IfOk result (λ all. all.items ≡ map alone sources.items) }
{
    let mut waiting = VecDeque::from_vec(sources);
    let mut all = Vec::with_capacity(alloc, waiting.len())?;
    while let Some(source) = waiting.pop_front() {
        all.push(InContext {
            source,
            context: no_context(),
            filter: None,
        })?;
    }
    Ok(all)
}
