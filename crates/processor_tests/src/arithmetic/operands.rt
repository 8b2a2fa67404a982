// Rows of two operands, of one, and of conditions. Made on 2026-12-01 on a processor of the x86-64 family by
// `cc -O1 -mno-red-zone -o vectors tests/vectors.c` and, for each table, `./vectors NAME` with its name in small letters; gcc 12.2.0.

/// Operations on two operands: two operands, flags before, result, flags after.
pub(super) const BINARY: &str = "\
Add 8 16 1 2 17 6
Add 8 38 1 2 39 6
Add 8 f 81 897 90 96
Add 8 7f a2 12 21 17
Add 16 c03b 558a 8d7 15c5 17
Add 16 7753 10 893 7763 6
Add 16 800f 7e00 2 fe0f 86
Add 16 54a4 f 2 54b3 12
Add 32 f bf75874 842 bf75883 12
Add 32 9c69cb55 2db07dc 2 9f44d331 92
Add 32 74916432 fffffffe 842 74916430 17
Add 32 7fffffff fffffffe 842 7ffffffd 13
Or 8 f 0 813 f 16
Or 8 84 8f 8d7 8f 92
Or 8 eb 68 92 eb 96
Or 8 fe 62 2 fe 82
Or 16 1 fcaf 52 fcaf 96
Or 16 fffe 27d 82 ffff 86
Or 16 7434 ae28 92 fe3c 96
Or 16 8001 4c3e 2 cc3f 86
Or 32 947323b7 903cd604 2 947ff7b7 86
Or 32 f5a439e5 4b096fa5 892 ffad7fe5 92
Or 32 b1f8ac33 fffffffe 96 ffffffff 96
Or 32 ddc8a643 7b24b415 8c2 ffecb657 82
Adc 8 b3 9a 8d7 4e 807
Adc 8 22 83 896 a5 86
Adc 8 5f 2 86 61 12
Adc 8 66 17 2 7d 6
Adc 16 1 16e3 8d7 16e5 2
Adc 16 10 7fff 8d7 8010 892
Adc 16 22c6 1 892 22c7 2
Adc 16 800f 2823 8d7 a833 96
Adc 32 89e45948 10 47 89e45959 86
Adc 32 ab1662cb 80000001 c3 2b1662cd 803
Adc 32 ce20f297 8d3140ea 8d7 5b523382 817
Adc 32 2 1 2 3 6
Sbb 8 ff ca 2 35 6
Sbb 8 8f 7f 8d7 f 816
Sbb 8 7f fe 856 81 887
Sbb 8 8f 2b c2 64 802
Sbb 16 1 8001 8d7 7fff 17
Sbb 16 5d88 1 8d7 5d86 2
Sbb 16 800f ffff 8d7 800f 97
Sbb 16 4f24 9a91 47 b492 883
Sbb 32 343421f8 7fffffff 2 b43421f9 97
Sbb 32 722b9e31 d5a1d907 883 9c89c529 893
Sbb 32 f ffffffff 8d3 f 17
Sbb 32 c9979d4c 10 2 c9979d3c 86
And 8 80 b8 8d7 80 92
And 8 90 b9 8d7 90 96
And 8 80 b3 8d7 80 92
And 8 8f 8f 8c6 8f 82
And 16 8001 6b7c 2 0 46
And 16 7ba2 8000 8c6 0 46
And 16 84ab ef97 2 8483 82
And 16 83ab f504 806 8100 86
And 32 92fb1264 37f9c015 8d2 12f90004 12
And 32 32e86c08 fffffffe 883 32e86c08 2
And 32 ffffffff 5265478f 812 5265478f 12
And 32 1e6ce23b f 887 b 2
Sub 8 1 0 852 1 2
Sub 8 d b3 87 5a 7
Sub 8 7f 9e c6 e1 887
Sub 8 0 8f 56 71 17
Sub 16 7fff 800f 2 fff0 887
Sub 16 0 fe3 2 f01d 97
Sub 16 da1e 7fff 847 5a1f 812
Sub 16 0 a774 2 588c 13
Sub 32 f 1d9fcc37 8c3 e26033d8 87
Sub 32 d181b6de 0 8d7 d181b6de 86
Sub 32 2 7fffffff 8d7 80000003 97
Sub 32 80000001 0 2 80000001 82
Xor 8 83 24 2 a7 82
Xor 8 ff 2b 2 d4 86
Xor 8 7f 44 8d7 3b 12
Xor 8 ff ca 8d7 35 16
Xor 16 0 d098 93 d098 92
Xor 16 f04d bfc1 2 4f8c 2
Xor 16 b588 2 817 b58a 92
Xor 16 b1c 6f3c 8d7 6420 12
Xor 32 80000000 e767d635 882 6767d635 6
Xor 32 8000000f aa6b02bb 86 2a6b02b4 6
Xor 32 f d42bc1b7 8d7 d42bc1b8 96
Xor 32 80000001 52f96d1 57 852f96d0 92
Cmp 8 c4 68 8d7 c4 816
Cmp 8 fe b9 807 fe 2
Cmp 8 ff 64 8d6 ff 82
Cmp 8 fe 9b 896 fe 6
Cmp 16 1ca5 10 806 1ca5 6
Cmp 16 fffe 2 2 fffe 86
Cmp 16 fb86 7fff 2 fb86 816
Cmp 16 f43e 0 893 f43e 82
Cmp 32 0 80000000 83 0 887
Cmp 32 a3808fd3 2 83 a3808fd3 86
Cmp 32 8e0fdb2 981e0083 8d7 8e0fdb2 13
Cmp 32 7fffffff ffffffff 2 7fffffff 887
Test 8 fe 54 8d7 fe 12
Test 8 f1 56 816 f1 16
Test 8 81 7f 3 81 2
Test 8 1 8 882 1 46
Test 16 564d 6006 8d7 564d 12
Test 16 f 57d6 812 f 16
Test 16 10 ffff 8d3 10 12
Test 16 8001 10 2 8001 46
Test 32 ffffffff fdf2014a 886 ffffffff 82
Test 32 db0a4b15 80000001 8d7 db0a4b15 92
Test 32 2 a846648 d2 2 56
Test 32 80000000 36223e02 6 80000000 46
";

/// Operations on one operand: the operand, flags before, result, flags after.
pub(super) const UNARY: &str = "\
Inc 8 16 892 17 6
Inc 8 38 8d7 39 7
Inc 8 10 807 11 7
Inc 8 ae 47 af 87
Inc 16 51a2 12 51a3 6
Inc 16 c03b 82 c03c 86
Inc 16 1 2 2 2
Inc 16 1 7 2 3
Inc 32 2 8d7 3 7
Inc 32 29de7e00 2 29de7e01 2
Inc 32 df3054a4 8d7 df3054a5 87
Inc 32 f 46 10 12
Dec 8 80 842 7f 812
Dec 8 55 d6 54 2
Dec 8 91 12 90 86
Dec 8 f 2 e 2
Dec 16 7fff 8d7 7ffe 3
Dec 16 89fb 2 89fa 86
Dec 16 f 8d7 e 3
Dec 16 4633 893 4632 3
Dec 32 5a79055e 8d7 5a79055d 3
Dec 32 71217feb 42 71217fea 2
Dec 32 a93614b2 882 a93614b1 86
Dec 32 80629d80 8d7 80629d7f 93
Not 8 39 83 c6 83
Not 8 48 2 b7 2
Not 8 8f 82 70 82
Not 8 34 2 cb 2
Not 16 1 92 fffe 92
Not 16 8001 816 7ffe 816
Not 16 9473 16 6b8c 16
Not 16 a72 2 f58d 2
Not 32 ffffffff 8d7 0 8d7
Not 32 1 812 fffffffe 812
Not 32 ac3385fb 2 53cc7a04 2
Not 32 360b396 2 fc9f4c69 2
Neg 8 d6 2 2a 13
Neg 8 ff 6 1 13
Neg 8 8f 892 71 17
Neg 8 8f 8c2 71 17
Neg 16 0 896 0 46
Neg 16 d45f 8d6 2ba1 13
Neg 16 0 2 0 46
Neg 16 f 2 fff1 93
Neg 32 1 2 ffffffff 97
Neg 32 1 2 ffffffff 97
Neg 32 80000001 8d7 7fffffff 17
Neg 32 10 8d7 fffffff0 87
";

/// Conditions: flags, and which of the conditions 0 to 15 hold, each by its bit.
pub(super) const CONDITION: &str = "\
Setcc 8 2 aaaa
Setcc 8 3 aa66
Setcc 8 6 a6aa
Setcc 8 7 a666
Setcc 8 42 6a5a
Setcc 8 43 6a56
Setcc 8 46 665a
Setcc 8 47 6656
Setcc 8 82 59aa
Setcc 8 83 5966
Setcc 8 86 55aa
Setcc 8 87 5566
Setcc 8 c2 595a
Setcc 8 c3 5956
Setcc 8 c6 555a
Setcc 8 c7 5556
Setcc 8 802 5aa9
Setcc 8 803 5a65
Setcc 8 806 56a9
Setcc 8 807 5665
Setcc 8 842 5a59
Setcc 8 843 5a55
Setcc 8 846 5659
Setcc 8 847 5655
Setcc 8 882 a9a9
Setcc 8 883 a965
Setcc 8 886 a5a9
Setcc 8 887 a565
Setcc 8 8c2 6959
Setcc 8 8c3 6955
Setcc 8 8c6 6559
Setcc 8 8c7 6555
";
