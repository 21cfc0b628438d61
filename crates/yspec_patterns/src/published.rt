//! Patterns of published modules, worked out.

ghost use Rattle.std.specs.Prelude.{◌≡◌, [], ◌∷◌, codes, Some, true, false};
ghost use Rattle.yspec_patterns.specs.Samples as sample;
ghost use Rattle.yspec_patterns.specs.Samples.{all_taken};

/// Addresses and names of hosts (`ietf-inet-types`).
pub fn addresses()
    ensures ipv4 { all_taken sample.ipv4 (codes "192.168.1.1" ∷ codes "256.1.1.1" ∷ codes "1.2.3" ∷ []) ≡ Some true ∷ Some false ∷ Some false ∷ [] }
    ensures zone { all_taken sample.ipv4_with_zone (codes "1.2.3.4%eth0" ∷ codes "1.2.3.4%" ∷ []) ≡ Some true ∷ Some false ∷ [] }
    ensures prefix { all_taken sample.ipv4_prefix (codes "10.0.0.0/8" ∷ codes "10.0.0.0/33" ∷ []) ≡ Some true ∷ Some false ∷ [] }
    ensures ipv6 { all_taken sample.ipv6_form (codes "2001:db8::1" ∷ codes "2001:db8" ∷ []) ≡ Some true ∷ Some false ∷ [] }
    ensures domain { all_taken sample.domain_name (codes "www.example.com" ∷ codes "-a.b" ∷ []) ≡ Some true ∷ Some false ∷ [] }
{}

/// Identifiers, dates, numbers of devices and others.
pub fn others()
    ensures object_identifier { all_taken sample.object_identifier (codes "1.3.6.1.2.1" ∷ codes "3.1" ∷ []) ≡ Some true ∷ Some false ∷ [] }
    ensures date { all_taken sample.date_and_time (codes "2026-11-27T09:30:00.5Z" ∷ codes "2026-11-27T09:30:00+01:00" ∷ codes "2026-11-27 09:30:00Z" ∷ [])
        ≡ Some true ∷ Some true ∷ Some false ∷ [] }
    ensures physical { all_taken sample.phys_address ([] ∷ codes "00:1B" ∷ codes "00:1" ∷ []) ≡ Some true ∷ Some true ∷ Some false ∷ [] }
    ensures mac { all_taken sample.mac_address (codes "00:1b:44:11:3A:B7" ∷ codes "00:1b:44:11:3A" ∷ []) ≡ Some true ∷ Some false ∷ [] }
    ensures uuid { all_taken sample.uuid (codes "f81d4fae-7dec-11d0-a765-00a0c91e6bf6" ∷ []) ≡ Some true ∷ [] }
    ensures identifier { all_taken sample.yang_identifier (codes "ietf-ip.v4_x" ∷ codes "4x" ∷ []) ≡ Some true ∷ Some false ∷ [] }
    ensures not_xml { all_taken sample.not_xml (codes "xmlns" ∷ codes "xm" ∷ []) ≡ Some false ∷ Some true ∷ [] }
    ensures name { all_taken sample.ncname (codes "a-b.c" ∷ codes "a:b" ∷ []) ≡ Some true ∷ Some false ∷ [] }
    ensures printable { all_taken sample.printable (codes "a~ [" ∷ codes "a~ Z" ∷ []) ≡ Some true ∷ Some false ∷ [] }
    ensures hash { all_taken sample.crypt_hash (codes "$0$secret" ∷ codes "$2$secret" ∷ []) ≡ Some true ∷ Some false ∷ [] }
    ensures language { all_taken sample.language (codes "en-US" ∷ codes "en-" ∷ []) ≡ Some true ∷ Some false ∷ [] }
{}
