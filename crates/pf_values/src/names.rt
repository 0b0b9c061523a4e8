//! Names of protocols and services, with their numbers (IANA's registries, as services(5) and protocols(5) have them).
ghost use Rattle.std.specs.Prelude.{◌≡◌};
ghost use Rattle.pf_values.specs.Named.{rows_in, rows_of, number_in};

/// Names of protocols.
const PROTOCOLS: [(&[u8], u16); 26] = [
    (b"ah", 51),
    (b"carp", 112),
    (b"egp", 8),
    (b"eigrp", 88),
    (b"esp", 50),
    (b"etherip", 97),
    (b"ggp", 3),
    (b"gre", 47),
    (b"icmp", 1),
    (b"icmp6", 58),
    (b"igmp", 2),
    (b"igp", 9),
    (b"ipcomp", 108),
    (b"ipencap", 4),
    (b"ipv6", 41),
    (b"ipv6-icmp", 58),
    (b"l2tp", 115),
    (b"ospf", 89),
    (b"pfsync", 240),
    (b"pim", 103),
    (b"rsvp", 46),
    (b"sctp", 132),
    (b"tcp", 6),
    (b"udp", 17),
    (b"udplite", 136),
    (b"vrrp", 112),
];

/// Names of services. The protocol makes no difference.
const SERVICES: [(&[u8], u16); 74] = [
    (b"auth", 113),
    (b"bgp", 179),
    (b"bootpc", 68),
    (b"bootps", 67),
    (b"chargen", 19),
    (b"daytime", 13),
    (b"dhcpv6-client", 546),
    (b"dhcpv6-server", 547),
    (b"discard", 9),
    (b"domain", 53),
    (b"echo", 7),
    (b"epmap", 135),
    (b"finger", 79),
    (b"ftp", 21),
    (b"ftp-data", 20),
    (b"ftps", 990),
    (b"ftps-data", 989),
    (b"git", 9418),
    (b"gopher", 70),
    (b"http", 80),
    (b"https", 443),
    (b"ident", 113),
    (b"imap", 143),
    (b"imaps", 993),
    (b"ipp", 631),
    (b"irc", 194),
    (b"ircs", 994),
    (b"isakmp", 500),
    (b"ldap", 389),
    (b"ldaps", 636),
    (b"mdns", 5353),
    (b"microsoft-ds", 445),
    (b"ms-sql-s", 1433),
    (b"ms-wbt-server", 3389),
    (b"mysql", 3306),
    (b"netbios-dgm", 138),
    (b"netbios-ns", 137),
    (b"netbios-ssn", 139),
    (b"nfs", 2049),
    (b"nfsd", 2049),
    (b"nicname", 43),
    (b"nntp", 119),
    (b"ntp", 123),
    (b"openvpn", 1194),
    (b"pop3", 110),
    (b"pop3s", 995),
    (b"postgresql", 5432),
    (b"pptp", 1723),
    (b"printer", 515),
    (b"radius", 1812),
    (b"radius-acct", 1813),
    (b"rdp", 3389),
    (b"rpcbind", 111),
    (b"rsync", 873),
    (b"sip", 5060),
    (b"sip-tls", 5061),
    (b"smtp", 25),
    (b"snmp", 161),
    (b"snmptrap", 162),
    (b"socks", 1080),
    (b"ssh", 22),
    (b"submission", 587),
    (b"submissions", 465),
    (b"sunrpc", 111),
    (b"svn", 3690),
    (b"syslog", 514),
    (b"telnet", 23),
    (b"tftp", 69),
    (b"time", 37),
    (b"whois", 43),
    (b"www", 80),
    (b"x11", 6000),
    (b"xmpp-client", 5222),
    (b"xmpp-server", 5269),
];

/// The number of a name in a table.
#[tactic(auto, using(crate::proofs::Steps::number_none))]
fn number_in(table: &[(&[u8], u16)], name: &[u8]) -> Option<u16>
    ensures { result ≡ number_in (rows_in table.now) name.now }
{
    for row in table {
        if row.0 == name {
            return Some(row.1);
        }
    }
    None
}

/// The number of the protocol with this name.
pub(crate) fn protocol_number(name: &[u8]) -> Option<u16>
    ensures { result ≡ number_in (rows_of PROTOCOLS) name.now }
{
    number_in(&PROTOCOLS, name)
}

/// The port of the service with this name. The protocol makes no difference.
pub(crate) fn service_port(name: &[u8]) -> Option<u16>
    ensures { result ≡ number_in (rows_of SERVICES) name.now }
{
    number_in(&SERVICES, name)
}
