//! The texts of one flow's table, computed from their definitions.

ghost use Rattle.std.specs.Prelude.{◌≡◌, [], codes, length};
ghost use Rattle.flow_export.specs.CsvText.{csv_text};
ghost use Rattle.flow_export.specs.IpfixText.{ipfix_text, message_count};
ghost use Rattle.flow_export.specs.Examples.{by_address, by_prefix, flows, one_flow, one_network, hundred_octets, network_octets};

/// One flow's table as CSV, by its address and by a prefix of it.
pub fn one_flow_as_csv()
    ensures address { csv_text [] by_address one_flow
        ≡ codes "start,end,sourceIPv4Address,octetDeltaCount,flows\n0,59999,192.0.2.1,1500,1\n" }
    ensures prefix { csv_text [] by_prefix one_network
        ≡ codes "start,end,sourceIPv4Address/24,octetDeltaCount,flows\n0,59999,192.0.2.0,1500,1\n" }
    ensures no_rows { csv_text [] by_address []
        ≡ codes "start,end,sourceIPv4Address,octetDeltaCount,flows\n" }
{}

/// The same as IPFIX; and how many messages a hundred rows fill, and one more.
pub fn one_flow_as_ipfix()
    ensures address { ipfix_text by_address 1700000000 one_flow ≡ hundred_octets }
    ensures prefix { ipfix_text by_prefix 1700000000 one_network ≡ network_octets }
    ensures no_rows { length (ipfix_text by_address 1700000000 []) ≡ 44 }
    ensures hundred { message_count (flows 100) ≡ 1 }
    ensures one_more { message_count (flows 101) ≡ 2 }
{}
