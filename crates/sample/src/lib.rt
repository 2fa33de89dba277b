// The sample plan: 0 empty; 1 node 97 over 0; 2 node 98 over 0; 3 pair 1 2; 4 node 99 over 3, hole, 2; 5 = 4 filled by 4;
// 6 = 5 filled by 1; 7 pair 6 3; start 7.
#![tactic(auto)]

ghost use Rattle.std.specs.Prelude.{◌≡◌};
ghost use Rattle.forest.specs.Sample.{sample};

// Its 74 bytes: a rule a line, then the trailer.
pub fn bytes() -> [u8; 74]
    ensures { result ≡ sample }
{
    *b"\x00\x00\x00\x00\x00\x00\x00\x00\
       \x02\x00\x61\x00\x00\x00\x00\x00\
       \x02\x00\x62\x00\x00\x00\x00\x00\
       \x01\x00\x01\x00\x02\x00\x00\x00\
       \x04\x00\x63\x00\x03\x00\x02\x00\
       \x05\x00\x04\x00\x04\x00\x00\x00\
       \x03\x00\x05\x00\x01\x00\x00\x00\
       \x01\x00\x06\x00\x03\x00\x00\x00\
       \x08\x00\x07\x00\x40\x00\x00\x00mp"
}
