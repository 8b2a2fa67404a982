// Spellings and their forms, by tests/objdump_forms.py on 2026-12-01 with GNU objdump (GNU Binutils for Debian) 2.40.

/// A line each: the bytes of a spelling, how many there are, its operation, its width, its three operands and its repeat.
pub(super) const FORMS: &str = "\
00c8 2 Add W8 Register(0) Register(1) Absent Once
01d8 2 Add W32 Register(0) Register(3) Absent Once
020424 3 Add W8 Register(0) Memory(Address { base: Some(4), index: None, displacement: 0 }) Absent Once
2403 2 And W8 Register(0) Immediate(3) Absent Once
0d78563412 5 Or W32 Register(0) Immediate(305419896) Absent Once
09ca 2 Or W32 Register(2) Register(1) Absent Once
0a4d08 3 Or W8 Register(1) Memory(Address { base: Some(5), index: None, displacement: 8 }) Absent Once
0b8f00010000 6 Or W32 Register(1) Memory(Address { base: Some(7), index: None, displacement: 256 }) Absent Once
1011 2 Adc W8 Memory(Address { base: Some(1), index: None, displacement: 0 }) Register(2) Absent Once
11d0 2 Adc W32 Register(0) Register(2) Absent Once
12f3 2 Adc W8 Register(6) Register(3) Absent Once
1314f5e0ff0000 7 Adc W32 Register(2) Memory(Address { base: None, index: Some((6, 3)), displacement: 65504 }) Absent Once
1480 2 Adc W8 Register(0) Immediate(128) Absent Once
1511223344 5 Adc W32 Register(0) Immediate(1144201745) Absent Once
18e1 2 Sbb W8 Register(1) Register(4) Absent Once
190424 3 Sbb W32 Memory(Address { base: Some(4), index: None, displacement: 0 }) Register(0) Absent Once
1a4efe 3 Sbb W8 Register(1) Memory(Address { base: Some(6), index: None, displacement: 4294967294 }) Absent Once
1b5c2404 4 Sbb W32 Register(3) Memory(Address { base: Some(4), index: None, displacement: 4 }) Absent Once
1cff 2 Sbb W8 Register(0) Immediate(255) Absent Once
1d80000000 5 Sbb W32 Register(0) Immediate(128) Absent Once
20c4 2 And W8 Register(4) Register(0) Absent Once
217504 3 And W32 Memory(Address { base: Some(5), index: None, displacement: 4 }) Register(6) Absent Once
22640a7f 4 And W8 Register(4) Memory(Address { base: Some(2), index: Some((1, 0)), displacement: 127 }) Absent Once
2305efbeadde 6 And W32 Register(0) Memory(Address { base: None, index: None, displacement: 3735928559 }) Absent Once
247f 2 And W8 Register(0) Immediate(127) Absent Once
25ffff0000 5 And W32 Register(0) Immediate(65535) Absent Once
28ed 2 Sub W8 Register(5) Register(5) Absent Once
29d6 2 Sub W32 Register(6) Register(2) Absent Once
2a38 2 Sub W8 Register(7) Memory(Address { base: Some(0), index: None, displacement: 0 }) Absent Once
2b3c9d00000000 7 Sub W32 Register(7) Memory(Address { base: None, index: Some((3, 2)), displacement: 0 }) Absent Once
2c01 2 Sub W8 Register(0) Immediate(1) Absent Once
2d04030201 5 Sub W32 Register(0) Immediate(16909060) Absent Once
30db 2 Xor W8 Register(3) Register(3) Absent Once
31ff 2 Xor W32 Register(7) Register(7) Absent Once
32742510 4 Xor W8 Register(6) Memory(Address { base: Some(5), index: None, displacement: 16 }) Absent Once
333424 3 Xor W32 Register(6) Memory(Address { base: Some(4), index: None, displacement: 0 }) Absent Once
34aa 2 Xor W8 Register(0) Immediate(170) Absent Once
3555aa55aa 5 Xor W32 Register(0) Immediate(2857740885) Absent Once
386f01 3 Cmp W8 Memory(Address { base: Some(7), index: None, displacement: 1 }) Register(5) Absent Once
39f7 2 Cmp W32 Register(7) Register(6) Absent Once
3a8412f0f0f0f0 7 Cmp W8 Register(0) Memory(Address { base: Some(2), index: Some((2, 0)), displacement: 4042322160 }) Absent Once
3bb4b500000080 7 Cmp W32 Register(6) Memory(Address { base: Some(5), index: Some((6, 2)), displacement: 2147483648 }) Absent Once
3c0d 2 Cmp W8 Register(0) Immediate(13) Absent Once
3d00000000 5 Cmp W32 Register(0) Immediate(0) Absent Once
6601d8 3 Add W16 Register(0) Register(3) Absent Once
66031e 3 Add W16 Register(3) Memory(Address { base: Some(6), index: None, displacement: 0 }) Absent Once
66053412 4 Add W16 Register(0) Immediate(4660) Absent Once
66294424fe 5 Sub W16 Memory(Address { base: Some(4), index: None, displacement: 4294967294 }) Register(0) Absent Once
66392d00100000 7 Cmp W16 Memory(Address { base: None, index: None, displacement: 4096 }) Register(5) Absent Once
663dff7f 4 Cmp W16 Register(0) Immediate(32767) Absent Once
40 1 Inc W32 Register(0) Absent Absent Once
43 1 Inc W32 Register(3) Absent Absent Once
664f 2 Dec W16 Register(7) Absent Absent Once
48 1 Dec W32 Register(0) Absent Absent Once
4c 1 Dec W32 Register(4) Absent Absent Once
50 1 Push W32 Register(0) Absent Absent Once
57 1 Push W32 Register(7) Absent Absent Once
6653 2 Push W16 Register(3) Absent Absent Once
5c 1 Pop W32 Register(4) Absent Absent Once
58 1 Pop W32 Register(0) Absent Absent Once
5d 1 Pop W32 Register(5) Absent Absent Once
665e 2 Pop W16 Register(6) Absent Absent Once
60 1 Pusha W32 Absent Absent Absent Once
61 1 Popa W32 Absent Absent Absent Once
6878563412 5 Push W32 Immediate(305419896) Absent Absent Once
66683412 4 Push W16 Immediate(4660) Absent Absent Once
6a7f 2 Push W32 Immediate(127) Absent Absent Once
6a80 2 Push W32 Immediate(4294967168) Absent Absent Once
666afe 3 Push W16 Immediate(4294967294) Absent Absent Once
69c178563412 6 Imul W32 Register(0) Register(1) Immediate(305419896) Once
66694a043412 6 Imul W16 Register(1) Memory(Address { base: Some(2), index: None, displacement: 4 }) Immediate(4660) Once
6bd0f6 3 Imul W32 Register(2) Register(0) Immediate(4294967286) Once
666bf805 4 Imul W16 Register(7) Register(0) Immediate(5) Once
6b1c8d000000000a 8 Imul W32 Register(3) Memory(Address { base: None, index: Some((1, 2)), displacement: 0 }) Immediate(10) Once
7000 2 Jcc W32 Immediate(0) Immediate(0) Absent Once
7110 2 Jcc W32 Immediate(16) Immediate(1) Absent Once
72fe 2 Jcc W32 Immediate(4294967294) Immediate(2) Absent Once
737f 2 Jcc W32 Immediate(127) Immediate(3) Absent Once
7480 2 Jcc W32 Immediate(4294967168) Immediate(4) Absent Once
7505 2 Jcc W32 Immediate(5) Immediate(5) Absent Once
7612 2 Jcc W32 Immediate(18) Immediate(6) Absent Once
7734 2 Jcc W32 Immediate(52) Immediate(7) Absent Once
78f0 2 Jcc W32 Immediate(4294967280) Immediate(8) Absent Once
7901 2 Jcc W32 Immediate(1) Immediate(9) Absent Once
7a02 2 Jcc W32 Immediate(2) Immediate(10) Absent Once
7b03 2 Jcc W32 Immediate(3) Immediate(11) Absent Once
7c04 2 Jcc W32 Immediate(4) Immediate(12) Absent Once
7d85 2 Jcc W32 Immediate(4294967173) Immediate(13) Absent Once
7e86 2 Jcc W32 Immediate(4294967174) Immediate(14) Absent Once
7fff 2 Jcc W32 Immediate(4294967295) Immediate(15) Absent Once
80c005 3 Add W8 Register(0) Immediate(5) Absent Once
804d10ff 4 Or W8 Memory(Address { base: Some(5), index: None, displacement: 16 }) Immediate(255) Absent Once
80d27f 3 Adc W8 Register(2) Immediate(127) Absent Once
809f00020000ee 7 Sbb W8 Memory(Address { base: Some(7), index: None, displacement: 512 }) Immediate(238) Absent Once
80e4f0 3 And W8 Register(4) Immediate(240) Absent Once
802c2401 4 Sub W8 Memory(Address { base: Some(4), index: None, displacement: 0 }) Immediate(1) Absent Once
80f1aa 3 Xor W8 Register(1) Immediate(170) Absent Once
803a00 3 Cmp W8 Memory(Address { base: Some(2), index: None, displacement: 0 }) Immediate(0) Absent Once
81c000010000 6 Add W32 Register(0) Immediate(256) Absent Once
6681c03412 5 Add W16 Register(0) Immediate(4660) Absent Once
810c8544332211ddccbbaa 11 Or W32 Memory(Address { base: None, index: Some((0, 2)), displacement: 287454020 }) Immediate(2864434397) Absent Once
81d700000080 6 Adc W32 Register(7) Immediate(2147483648) Absent Once
819c24000100007f000000 11 Sbb W32 Memory(Address { base: Some(4), index: None, displacement: 256 }) Immediate(127) Absent Once
81e6ff0f0000 6 And W32 Register(6) Immediate(4095) Absent Once
8168fc00010000 7 Sub W32 Memory(Address { base: Some(0), index: None, displacement: 4294967292 }) Immediate(256) Absent Once
81f3ffffffff 6 Xor W32 Register(3) Immediate(4294967295) Absent Once
6681faff7f 5 Cmp W16 Register(2) Immediate(32767) Absent Once
83c0fe 3 Add W32 Register(0) Immediate(4294967294) Absent Once
6683c0fe 4 Add W16 Register(0) Immediate(4294967294) Absent Once
834df801 4 Or W32 Memory(Address { base: Some(5), index: None, displacement: 4294967288 }) Immediate(1) Absent Once
83d1ff 3 Adc W32 Register(1) Immediate(4294967295) Absent Once
83580403 4 Sbb W32 Memory(Address { base: Some(0), index: None, displacement: 4 }) Immediate(3) Absent Once
83e4f0 3 And W32 Register(4) Immediate(4294967280) Absent Once
83ec18 3 Sub W32 Register(4) Immediate(24) Absent Once
8335887766557f 7 Xor W32 Memory(Address { base: None, index: None, displacement: 1432778632 }) Immediate(127) Absent Once
833cb37f 4 Cmp W32 Memory(Address { base: Some(3), index: Some((6, 2)), displacement: 0 }) Immediate(127) Absent Once
6683bf0000000080 8 Cmp W16 Memory(Address { base: Some(7), index: None, displacement: 0 }) Immediate(4294967168) Absent Once
84c9 2 Test W8 Register(1) Register(1) Absent Once
85c0 2 Test W32 Register(0) Register(0) Absent Once
668505785634f2 7 Test W16 Memory(Address { base: None, index: None, displacement: 4063516280 }) Register(0) Absent Once
8411 2 Test W8 Memory(Address { base: Some(1), index: None, displacement: 0 }) Register(2) Absent Once
86c4 2 Xchg W8 Register(4) Register(0) Absent Once
8631 2 Xchg W8 Memory(Address { base: Some(1), index: None, displacement: 0 }) Register(6) Absent Once
87d9 2 Xchg W32 Register(1) Register(3) Absent Once
87442404 4 Xchg W32 Memory(Address { base: Some(4), index: None, displacement: 4 }) Register(0) Absent Once
66871f 3 Xchg W16 Memory(Address { base: Some(7), index: None, displacement: 0 }) Register(3) Absent Once
88e0 2 Mov W8 Register(0) Register(4) Absent Once
88041e 3 Mov W8 Memory(Address { base: Some(6), index: Some((3, 0)), displacement: 0 }) Register(0) Absent Once
8945fc 3 Mov W32 Memory(Address { base: Some(5), index: None, displacement: 4294967292 }) Register(0) Absent Once
8904cd00000000 7 Mov W32 Memory(Address { base: None, index: Some((1, 3)), displacement: 0 }) Register(0) Absent Once
668913 3 Mov W16 Memory(Address { base: Some(3), index: None, displacement: 0 }) Register(2) Absent Once
8a07 2 Mov W8 Register(0) Memory(Address { base: Some(7), index: None, displacement: 0 }) Absent Once
8a6c8d05 4 Mov W8 Register(5) Memory(Address { base: Some(5), index: Some((1, 2)), displacement: 5 }) Absent Once
8b450c 3 Mov W32 Register(0) Memory(Address { base: Some(5), index: None, displacement: 12 }) Absent Once
8b2c24 3 Mov W32 Register(5) Memory(Address { base: Some(4), index: None, displacement: 0 }) Absent Once
668b8dfcffffff 7 Mov W16 Register(1) Memory(Address { base: Some(5), index: None, displacement: 4294967292 }) Absent Once
8d4508 3 Lea W32 Register(0) Memory(Address { base: Some(5), index: None, displacement: 8 }) Absent Once
8d0490 3 Lea W32 Register(0) Memory(Address { base: Some(0), index: Some((2, 2)), displacement: 0 }) Absent Once
8d34f5f0ffffff 7 Lea W32 Register(6) Memory(Address { base: None, index: Some((6, 3)), displacement: 4294967280 }) Absent Once
668d5f7f 4 Lea W16 Register(3) Memory(Address { base: Some(7), index: None, displacement: 127 }) Absent Once
8d25ffffffff 6 Lea W32 Register(4) Memory(Address { base: None, index: None, displacement: 4294967295 }) Absent Once
8f00 2 Pop W32 Memory(Address { base: Some(0), index: None, displacement: 0 }) Absent Absent Once
8fc1 2 Pop W32 Register(1) Absent Absent Once
668f4510 4 Pop W16 Memory(Address { base: Some(5), index: None, displacement: 16 }) Absent Absent Once
8f8424f8000000 7 Pop W32 Memory(Address { base: Some(4), index: None, displacement: 248 }) Absent Absent Once
90 1 Xchg W32 Register(0) Register(0) Absent Once
91 1 Xchg W32 Register(0) Register(1) Absent Once
6693 2 Xchg W16 Register(0) Register(3) Absent Once
97 1 Xchg W32 Register(0) Register(7) Absent Once
6690 2 Xchg W16 Register(0) Register(0) Absent Once
98 1 Cbw W32 Absent Absent Absent Once
6698 2 Cbw W16 Absent Absent Absent Once
99 1 Cwd W32 Absent Absent Absent Once
6699 2 Cwd W16 Absent Absent Absent Once
9c 1 Pushf W32 Absent Absent Absent Once
9d 1 Popf W32 Absent Absent Absent Once
9e 1 Sahf W32 Absent Absent Absent Once
9f 1 Lahf W32 Absent Absent Absent Once
a078563412 5 Mov W8 Register(0) Memory(Address { base: None, index: None, displacement: 305419896 }) Absent Once
a1efbeadde 5 Mov W32 Register(0) Memory(Address { base: None, index: None, displacement: 3735928559 }) Absent Once
a244332211 5 Mov W8 Memory(Address { base: None, index: None, displacement: 287454020 }) Register(0) Absent Once
a3000000ff 5 Mov W32 Memory(Address { base: None, index: None, displacement: 4278190080 }) Register(0) Absent Once
66a110000000 6 Mov W16 Register(0) Memory(Address { base: None, index: None, displacement: 16 }) Absent Once
a4 1 Movs W8 Absent Absent Absent Once
a5 1 Movs W32 Absent Absent Absent Once
66a5 2 Movs W16 Absent Absent Absent Once
a6 1 Cmps W8 Absent Absent Absent Once
a7 1 Cmps W32 Absent Absent Absent Once
66a7 2 Cmps W16 Absent Absent Absent Once
a87f 2 Test W8 Register(0) Immediate(127) Absent Once
a9f0f0f0f0 5 Test W32 Register(0) Immediate(4042322160) Absent Once
66a93412 4 Test W16 Register(0) Immediate(4660) Absent Once
aa 1 Stos W8 Absent Absent Absent Once
ab 1 Stos W32 Absent Absent Absent Once
66ab 2 Stos W16 Absent Absent Absent Once
ac 1 Lods W8 Absent Absent Absent Once
ad 1 Lods W32 Absent Absent Absent Once
66ad 2 Lods W16 Absent Absent Absent Once
ae 1 Scas W8 Absent Absent Absent Once
af 1 Scas W32 Absent Absent Absent Once
66af 2 Scas W16 Absent Absent Absent Once
f3a4 2 Movs W8 Absent Absent Absent WhileEqual
f3a5 2 Movs W32 Absent Absent Absent WhileEqual
f366a5 3 Movs W16 Absent Absent Absent WhileEqual
f3a6 2 Cmps W8 Absent Absent Absent WhileEqual
f2a7 2 Cmps W32 Absent Absent Absent WhileUnequal
f3aa 2 Stos W8 Absent Absent Absent WhileEqual
66f3ab 3 Stos W16 Absent Absent Absent WhileEqual
f3ac 2 Lods W8 Absent Absent Absent WhileEqual
f2ae 2 Scas W8 Absent Absent Absent WhileUnequal
f3af 2 Scas W32 Absent Absent Absent WhileEqual
f2f3a4 3 Movs W8 Absent Absent Absent WhileEqual
f3f2ae 3 Scas W8 Absent Absent Absent WhileUnequal
b07f 2 Mov W8 Register(0) Immediate(127) Absent Once
b3ff 2 Mov W8 Register(3) Immediate(255) Absent Once
b401 2 Mov W8 Register(4) Immediate(1) Absent Once
b710 2 Mov W8 Register(7) Immediate(16) Absent Once
b878563412 5 Mov W32 Register(0) Immediate(305419896) Absent Once
66bbcdab 4 Mov W16 Register(3) Immediate(43981) Absent Once
bcfcff0000 5 Mov W32 Register(4) Immediate(65532) Absent Once
bf00000080 5 Mov W32 Register(7) Immediate(2147483648) Absent Once
c0c003 3 Rol W8 Register(0) Immediate(3) Absent Once
c0490105 4 Ror W8 Memory(Address { base: Some(1), index: None, displacement: 1 }) Immediate(5) Absent Once
c0d307 3 Rcl W8 Register(3) Immediate(7) Absent Once
c01c9801 4 Rcr W8 Memory(Address { base: Some(0), index: Some((3, 2)), displacement: 0 }) Immediate(1) Absent Once
c0e004 3 Shl W8 Register(0) Immediate(4) Absent Once
c0e81f 3 Shr W8 Register(0) Immediate(31) Absent Once
c0f802 3 Sar W8 Register(0) Immediate(2) Absent Once
c1c010 3 Rol W32 Register(0) Immediate(16) Absent Once
66c1c804 4 Ror W16 Register(0) Immediate(4) Absent Once
c15508ff 4 Rcl W32 Memory(Address { base: Some(5), index: None, displacement: 8 }) Immediate(255) Absent Once
c1d901 3 Rcr W32 Register(1) Immediate(1) Absent Once
c1e002 3 Shl W32 Register(0) Immediate(2) Absent Once
c1e91f 3 Shr W32 Register(1) Immediate(31) Absent Once
66c1ff08 4 Sar W16 Register(7) Immediate(8) Absent Once
d0c0 2 Rol W8 Register(0) Immediate(1) Absent Once
d009 2 Ror W8 Memory(Address { base: Some(1), index: None, displacement: 0 }) Immediate(1) Absent Once
d0d1 2 Rcl W8 Register(1) Immediate(1) Absent Once
d018 2 Rcr W8 Memory(Address { base: Some(0), index: None, displacement: 0 }) Immediate(1) Absent Once
d0e2 2 Shl W8 Register(2) Immediate(1) Absent Once
d0ec 2 Shr W8 Register(4) Immediate(1) Absent Once
d0fe 2 Sar W8 Register(6) Immediate(1) Absent Once
d1c6 2 Rol W32 Register(6) Immediate(1) Absent Once
d14c2408 4 Ror W32 Memory(Address { base: Some(4), index: None, displacement: 8 }) Immediate(1) Absent Once
d1d0 2 Rcl W32 Register(0) Immediate(1) Absent Once
66d1db 3 Rcr W16 Register(3) Immediate(1) Absent Once
d1e0 2 Shl W32 Register(0) Immediate(1) Absent Once
d12d00040000 6 Shr W32 Memory(Address { base: None, index: None, displacement: 1024 }) Immediate(1) Absent Once
d1f8 2 Sar W32 Register(0) Immediate(1) Absent Once
d2c0 2 Rol W8 Register(0) Register(1) Absent Once
d208 2 Ror W8 Memory(Address { base: Some(0), index: None, displacement: 0 }) Register(1) Absent Once
d2d3 2 Rcl W8 Register(3) Register(1) Absent Once
d21e 2 Rcr W8 Memory(Address { base: Some(6), index: None, displacement: 0 }) Register(1) Absent Once
d2e1 2 Shl W8 Register(1) Register(1) Absent Once
d26d00 3 Shr W8 Memory(Address { base: Some(5), index: None, displacement: 0 }) Register(1) Absent Once
d2fa 2 Sar W8 Register(2) Register(1) Absent Once
d3c0 2 Rol W32 Register(0) Register(1) Absent Once
d3cb 2 Ror W32 Register(3) Register(1) Absent Once
66d3d1 3 Rcl W16 Register(1) Register(1) Absent Once
d3d9 2 Rcr W32 Register(1) Register(1) Absent Once
d3e0 2 Shl W32 Register(0) Register(1) Absent Once
d3a40b00010000 7 Shl W32 Memory(Address { base: Some(3), index: Some((1, 0)), displacement: 256 }) Register(1) Absent Once
d3ff 2 Sar W32 Register(7) Register(1) Absent Once
c20800 3 Ret W32 Immediate(8) Absent Absent Once
c2feff 3 Ret W32 Immediate(65534) Absent Absent Once
c3 1 Ret W32 Immediate(0) Absent Absent Once
c60041 3 Mov W8 Memory(Address { base: Some(0), index: None, displacement: 0 }) Immediate(65) Absent Once
c6c3aa 3 Mov W8 Register(3) Immediate(170) Absent Once
c7c0efbeadde 6 Mov W32 Register(0) Immediate(3735928559) Absent Once
c7042478563412 7 Mov W32 Memory(Address { base: Some(4), index: None, displacement: 0 }) Immediate(305419896) Absent Once
66c745fe3412 6 Mov W16 Memory(Address { base: Some(5), index: None, displacement: 4294967294 }) Immediate(4660) Absent Once
c7848510000000ffffffff 11 Mov W32 Memory(Address { base: Some(5), index: Some((0, 2)), displacement: 16 }) Immediate(4294967295) Absent Once
c9 1 Leave W32 Absent Absent Absent Once
cc 1 Int3 W32 Absent Absent Absent Once
cd80 2 Int W32 Immediate(128) Absent Absent Once
cd21 2 Int W32 Immediate(33) Absent Absent Once
ce 1 Into W32 Absent Absent Absent Once
cf 1 Iret W32 Absent Absent Absent Once
d7 1 Xlat W32 Absent Absent Absent Once
e0f0 2 Loopne W32 Immediate(4294967280) Absent Absent Once
e110 2 Loope W32 Immediate(16) Absent Absent Once
e2fe 2 Loop W32 Immediate(4294967294) Absent Absent Once
e305 2 Jecxz W32 Immediate(5) Absent Absent Once
e460 2 In W8 Register(0) Immediate(96) Absent Once
e580 2 In W32 Register(0) Immediate(128) Absent Once
66e5f0 3 In W16 Register(0) Immediate(240) Absent Once
e6a0 2 Out W8 Immediate(160) Register(0) Absent Once
e743 2 Out W32 Immediate(67) Register(0) Absent Once
66e720 3 Out W16 Immediate(32) Register(0) Absent Once
e878563412 5 Call W32 Immediate(305419896) Absent Absent Once
e8fbffffff 5 Call W32 Immediate(4294967291) Absent Absent Once
e900000080 5 Jmp W32 Immediate(2147483648) Absent Absent Once
ebfe 2 Jmp W32 Immediate(4294967294) Absent Absent Once
eb7f 2 Jmp W32 Immediate(127) Absent Absent Once
ec 1 In W8 Register(0) Register(2) Absent Once
ed 1 In W32 Register(0) Register(2) Absent Once
66ed 2 In W16 Register(0) Register(2) Absent Once
ee 1 Out W8 Register(2) Register(0) Absent Once
ef 1 Out W32 Register(2) Register(0) Absent Once
66ef 2 Out W16 Register(2) Register(0) Absent Once
f4 1 Hlt W32 Absent Absent Absent Once
f5 1 Cmc W32 Absent Absent Absent Once
f8 1 Clc W32 Absent Absent Absent Once
66f8 2 Clc W16 Absent Absent Absent Once
f9 1 Stc W32 Absent Absent Absent Once
fa 1 Cli W32 Absent Absent Absent Once
fb 1 Sti W32 Absent Absent Absent Once
fc 1 Cld W32 Absent Absent Absent Once
fd 1 Std W32 Absent Absent Absent Once
f6c3ff 3 Test W8 Register(3) Immediate(255) Absent Once
f6058000000055 7 Test W8 Memory(Address { base: None, index: None, displacement: 128 }) Immediate(85) Absent Once
f61424 3 Not W8 Memory(Address { base: Some(4), index: None, displacement: 0 }) Absent Absent Once
f6d8 2 Neg W8 Register(0) Absent Absent Once
f6e1 2 Mul W8 Register(1) Absent Absent Once
f66d10 3 Imul W8 Memory(Address { base: Some(5), index: None, displacement: 16 }) Absent Absent Once
f6f3 2 Div W8 Register(3) Absent Absent Once
f63c8e 3 Idiv W8 Memory(Address { base: Some(6), index: Some((1, 2)), displacement: 0 }) Absent Absent Once
f7c100000080 6 Test W32 Register(1) Immediate(2147483648) Absent Once
66f7c63412 5 Test W16 Register(6) Immediate(4660) Absent Once
f7d0 2 Not W32 Register(0) Absent Absent Once
f75d08 3 Neg W32 Memory(Address { base: Some(5), index: None, displacement: 8 }) Absent Absent Once
66f7d9 3 Neg W16 Register(1) Absent Absent Once
f7e1 2 Mul W32 Register(1) Absent Absent Once
f72c24 3 Imul W32 Memory(Address { base: Some(4), index: None, displacement: 0 }) Absent Absent Once
f7f6 2 Div W32 Register(6) Absent Absent Once
f73b 2 Idiv W32 Memory(Address { base: Some(3), index: None, displacement: 0 }) Absent Absent Once
f7bd00ffffff 6 Idiv W32 Memory(Address { base: Some(5), index: None, displacement: 4294967040 }) Absent Absent Once
fec0 2 Inc W8 Register(0) Absent Absent Once
fe0c24 3 Dec W8 Memory(Address { base: Some(4), index: None, displacement: 0 }) Absent Absent Once
ffc7 2 Inc W32 Register(7) Absent Absent Once
66ff00 3 Inc W16 Memory(Address { base: Some(0), index: None, displacement: 0 }) Absent Absent Once
ff4dfc 3 Dec W32 Memory(Address { base: Some(5), index: None, displacement: 4294967292 }) Absent Absent Once
ffc9 2 Dec W32 Register(1) Absent Absent Once
ffd0 2 Call W32 Register(0) Absent Absent Once
ff1485f0000000 7 Call W32 Memory(Address { base: None, index: Some((0, 2)), displacement: 240 }) Absent Absent Once
ff5308 3 Call W32 Memory(Address { base: Some(3), index: None, displacement: 8 }) Absent Absent Once
ffe2 2 Jmp W32 Register(2) Absent Absent Once
ff24b578563412 7 Jmp W32 Memory(Address { base: None, index: Some((6, 2)), displacement: 305419896 }) Absent Absent Once
ff7508 3 Push W32 Memory(Address { base: Some(5), index: None, displacement: 8 }) Absent Absent Once
66ff36 3 Push W16 Memory(Address { base: Some(6), index: None, displacement: 0 }) Absent Absent Once
ff742410 4 Push W32 Memory(Address { base: Some(4), index: None, displacement: 16 }) Absent Absent Once
0f8000010000 6 Jcc W32 Immediate(256) Immediate(0) Absent Once
0f82f0ffffff 6 Jcc W32 Immediate(4294967280) Immediate(2) Absent Once
0f8378563412 6 Jcc W32 Immediate(305419896) Immediate(3) Absent Once
0f8500000000 6 Jcc W32 Immediate(0) Immediate(5) Absent Once
0f87ffffff7f 6 Jcc W32 Immediate(2147483647) Immediate(7) Absent Once
0f8afefffff1 6 Jcc W32 Immediate(4060086270) Immediate(10) Absent Once
0f8d11000000 6 Jcc W32 Immediate(17) Immediate(13) Absent Once
0f8f04030201 6 Jcc W32 Immediate(16909060) Immediate(15) Absent Once
0f90c0 3 Setcc W8 Register(0) Immediate(0) Absent Once
0f91c3 3 Setcc W8 Register(3) Immediate(1) Absent Once
0f924501 4 Setcc W8 Memory(Address { base: Some(5), index: None, displacement: 1 }) Immediate(2) Absent Once
0f93c4 3 Setcc W8 Register(4) Immediate(3) Absent Once
0f94042f 4 Setcc W8 Memory(Address { base: Some(7), index: Some((5, 0)), displacement: 0 }) Immediate(4) Absent Once
0f95c7 3 Setcc W8 Register(7) Immediate(5) Absent Once
0f96c2 3 Setcc W8 Register(2) Immediate(6) Absent Once
0f970500100000 7 Setcc W8 Memory(Address { base: None, index: None, displacement: 4096 }) Immediate(7) Absent Once
0f98d9 3 Setcc W8 Register(1) Immediate(8) Absent Once
0f9a00 3 Setcc W8 Memory(Address { base: Some(0), index: None, displacement: 0 }) Immediate(10) Absent Once
0f9cfc 3 Setcc W8 Register(4) Immediate(12) Absent Once
0f9e45ff 4 Setcc W8 Memory(Address { base: Some(5), index: None, displacement: 4294967295 }) Immediate(14) Absent Once
0f9fc0 3 Setcc W8 Register(0) Immediate(15) Absent Once
0fa3c8 3 Bt W32 Register(0) Register(1) Absent Once
660fa30b 4 Bt W16 Memory(Address { base: Some(3), index: None, displacement: 0 }) Register(1) Absent Once
0fab4508 4 Bts W32 Memory(Address { base: Some(5), index: None, displacement: 8 }) Register(0) Absent Once
0fb3d1 3 Btr W32 Register(1) Register(2) Absent Once
0fbb1c24 4 Btc W32 Memory(Address { base: Some(4), index: None, displacement: 0 }) Register(3) Absent Once
0fbae01f 4 Bt W32 Register(0) Immediate(31) Absent Once
0fba2d0004000007 8 Bts W32 Memory(Address { base: None, index: None, displacement: 1024 }) Immediate(7) Absent Once
660fbaf30f 5 Btr W16 Register(3) Immediate(15) Absent Once
0fba7c240480 6 Btc W32 Memory(Address { base: Some(4), index: None, displacement: 4 }) Immediate(128) Absent Once
0fa4d805 4 Shld W32 Register(0) Register(3) Immediate(5) Once
660fa4cb0c 5 Shld W16 Register(3) Register(1) Immediate(12) Once
0fa4550810 5 Shld W32 Memory(Address { base: Some(5), index: None, displacement: 8 }) Register(2) Immediate(16) Once
0fa5f8 3 Shld W32 Register(0) Register(7) Register(1) Once
0fa51f 3 Shld W32 Memory(Address { base: Some(7), index: None, displacement: 0 }) Register(3) Register(1) Once
0facd01f 4 Shrd W32 Register(0) Register(2) Immediate(31) Once
0fac4dfc03 5 Shrd W32 Memory(Address { base: Some(5), index: None, displacement: 4294967292 }) Register(1) Immediate(3) Once
0fadc1 3 Shrd W32 Register(1) Register(0) Register(1) Once
660fade8 4 Shrd W16 Register(0) Register(5) Register(1) Once
0fafc1 3 Imul W32 Register(0) Register(1) Absent Once
660faf5d02 5 Imul W16 Register(3) Memory(Address { base: Some(5), index: None, displacement: 2 }) Absent Once
0faf0485f0f0f0f0 8 Imul W32 Register(0) Memory(Address { base: None, index: Some((0, 2)), displacement: 4042322160 }) Absent Once
0fb6c1 3 Movzx W32 Register(0) Register(1) Immediate(8) Once
660fb6d8 4 Movzx W16 Register(3) Register(0) Immediate(8) Once
0fb64f08 4 Movzx W32 Register(1) Memory(Address { base: Some(7), index: None, displacement: 8 }) Immediate(8) Once
0fb7ca 3 Movzx W32 Register(1) Register(2) Immediate(16) Once
0fb70424 4 Movzx W32 Register(0) Memory(Address { base: Some(4), index: None, displacement: 0 }) Immediate(16) Once
0fbec4 3 Movsx W32 Register(0) Register(4) Immediate(8) Once
660fbe3e 4 Movsx W16 Register(7) Memory(Address { base: Some(6), index: None, displacement: 0 }) Immediate(8) Once
0fbfd6 3 Movsx W32 Register(2) Register(6) Immediate(16) Once
0fbf9cc110203040 8 Movsx W32 Register(3) Memory(Address { base: Some(1), index: Some((0, 3)), displacement: 1076895760 }) Immediate(16) Once
0fbcc3 3 Bsf W32 Register(0) Register(3) Absent Once
660fbc11 4 Bsf W16 Register(2) Memory(Address { base: Some(1), index: None, displacement: 0 }) Absent Once
0fbd4510 4 Bsr W32 Register(0) Memory(Address { base: Some(5), index: None, displacement: 16 }) Absent Once
0fbdff 3 Bsr W32 Register(7) Register(7) Absent Once
8b05ffffffff 6 Mov W32 Register(0) Memory(Address { base: None, index: None, displacement: 4294967295 }) Absent Once
8b04250000000f 7 Mov W32 Register(0) Memory(Address { base: None, index: None, displacement: 251658240 }) Absent Once
8b04e510000080 7 Mov W32 Register(0) Memory(Address { base: None, index: None, displacement: 2147483664 }) Absent Once
8b042c 3 Mov W32 Register(0) Memory(Address { base: Some(4), index: Some((5, 0)), displacement: 0 }) Absent Once
8b4425f8 4 Mov W32 Register(0) Memory(Address { base: Some(5), index: None, displacement: 4294967288 }) Absent Once
8b04658000000f 7 Mov W32 Register(0) Memory(Address { base: None, index: None, displacement: 251658368 }) Absent Once
8b8424fcffffff 7 Mov W32 Register(0) Memory(Address { base: Some(4), index: None, displacement: 4294967292 }) Absent Once
8b046c 3 Mov W32 Register(0) Memory(Address { base: Some(4), index: Some((5, 1)), displacement: 0 }) Absent Once
8b0460 3 Mov W32 Register(0) Memory(Address { base: Some(0), index: None, displacement: 0 }) Absent Once
8b44a001 4 Mov W32 Register(0) Memory(Address { base: Some(0), index: None, displacement: 1 }) Absent Once
8b84e010000000 7 Mov W32 Register(0) Memory(Address { base: Some(0), index: None, displacement: 16 }) Absent Once
8b4500 3 Mov W32 Register(0) Memory(Address { base: Some(5), index: None, displacement: 0 }) Absent Once
8b6d00 3 Mov W32 Register(5) Memory(Address { base: Some(5), index: None, displacement: 0 }) Absent Once
8bad00000000 6 Mov W32 Register(5) Memory(Address { base: Some(5), index: None, displacement: 0 }) Absent Once
8b44ed00 4 Mov W32 Register(0) Memory(Address { base: Some(5), index: Some((5, 3)), displacement: 0 }) Absent Once
8b041b 3 Mov W32 Register(0) Memory(Address { base: Some(3), index: Some((3, 0)), displacement: 0 }) Absent Once
8b445b01 4 Mov W32 Register(0) Memory(Address { base: Some(3), index: Some((3, 1)), displacement: 1 }) Absent Once
8b849b00020000 7 Mov W32 Register(0) Memory(Address { base: Some(3), index: Some((3, 2)), displacement: 512 }) Absent Once
8b04db 3 Mov W32 Register(0) Memory(Address { base: Some(3), index: Some((3, 3)), displacement: 0 }) Absent Once
8b0c3d00000000 7 Mov W32 Register(1) Memory(Address { base: None, index: Some((7, 0)), displacement: 0 }) Absent Once
8b0c7d01000000 7 Mov W32 Register(1) Memory(Address { base: None, index: Some((7, 1)), displacement: 1 }) Absent Once
8b0cbdffffffff 7 Mov W32 Register(1) Memory(Address { base: None, index: Some((7, 2)), displacement: 4294967295 }) Absent Once
8b5c3e80 4 Mov W32 Register(3) Memory(Address { base: Some(6), index: Some((7, 0)), displacement: 4294967168 }) Absent Once
8b5c7e7f 4 Mov W32 Register(3) Memory(Address { base: Some(6), index: Some((7, 1)), displacement: 127 }) Absent Once
268b07 3 Mov W32 Register(0) Memory(Address { base: Some(7), index: None, displacement: 0 }) Absent Once
2e8b07 3 Mov W32 Register(0) Memory(Address { base: Some(7), index: None, displacement: 0 }) Absent Once
368b4500 4 Mov W32 Register(0) Memory(Address { base: Some(5), index: None, displacement: 0 }) Absent Once
3e8901 3 Mov W32 Memory(Address { base: Some(1), index: None, displacement: 0 }) Register(0) Absent Once
648b0d00000000 7 Mov W32 Register(1) Memory(Address { base: None, index: None, displacement: 0 }) Absent Once
658a4301 4 Mov W8 Register(0) Memory(Address { base: Some(3), index: None, displacement: 1 }) Absent Once
f00108 3 Add W32 Memory(Address { base: Some(0), index: None, displacement: 0 }) Register(1) Absent Once
f301c8 3 Add W32 Register(0) Register(1) Absent Once
f301d0 3 Add W32 Register(0) Register(2) Absent Once
f2f0ff00 4 Inc W32 Memory(Address { base: Some(0), index: None, displacement: 0 }) Absent Absent Once
2e6626f081003412 8 Add W16 Memory(Address { base: Some(0), index: None, displacement: 0 }) Immediate(4660) Absent Once
6666b83412 5 Mov W16 Register(0) Immediate(4660) Absent Once
666666f3ab 5 Stos W16 Absent Absent Absent WhileEqual
f3f3f3a6 4 Cmps W8 Absent Absent Absent WhileEqual
f2f2f2f2ae 5 Scas W8 Absent Absent Absent WhileUnequal
262e363e646566f3f0a5 10 Movs W16 Absent Absent Absent WhileEqual
2e2e2e2e2e2e2e2e81c078563412 14 Add W32 Register(0) Immediate(305419896) Absent Once
";
