//! Bytes and the instructions that they spell, one in a row.
//!
//! A row has marks, the bytes in hex, and the instruction as it is printed at address 0. The marks say which calls
//! write these bytes: `e` the one spelling, `n` that with a wide number, `p` with a wide displacement, `b` with both,
//! and `-` none of them.

/// By NASM 2.16.01 (`nasm -f bin`, `bits 32`), and where NASM avoids a form by GNU as 2.40 (`as --32`,
/// `.intel_syntax noprefix`, with `{load}`, `{store}` or `{disp32}`).
pub(super) const ASSEMBLED: &str = "\
e 0f8000010000 jo 0x106\n\
e 0f8101010000 jno 0x107\n\
e 0f8202010000 jb 0x108\n\
- 0f8303010000 jae 0x109\n\
- 0f8404010000 je 0x10a\n\
- 0f8505010000 jne 0x10b\n\
- 0f8606010000 jbe 0x10c\n\
- 0f8707010000 ja 0x10d\n\
- 0f8808010000 js 0x10e\n\
- 0f8909010000 jns 0x10f\n\
- 0f8a0a010000 jp 0x110\n\
- 0f8b0b010000 jnp 0x111\n\
- 0f8c0c010000 jl 0x112\n\
- 0f8d0d010000 jge 0x113\n\
- 0f8e0e010000 jle 0x114\n\
- 0f8f0f010000 jg 0x115\n\
e 70fd jo short 0xffffffff\n\
e 71fc jno short 0xfffffffe\n\
e 72fb jb short 0xfffffffd\n\
- 73fa jae short 0xfffffffc\n\
- 74f9 je short 0xfffffffb\n\
- 75f8 jne short 0xfffffffa\n\
- 76f7 jbe short 0xfffffff9\n\
- 77f6 ja short 0xfffffff8\n\
- 78f5 js short 0xfffffff7\n\
- 79f4 jns short 0xfffffff6\n\
- 7af3 jp short 0xfffffff5\n\
- 7bf2 jnp short 0xfffffff4\n\
- 7cf1 jl short 0xfffffff3\n\
- 7df0 jge short 0xfffffff2\n\
- 7eef jle short 0xfffffff1\n\
- 7fee jg short 0xfffffff0\n\
e 0f904101 seto byte [ecx+0x1]\n\
e 0f91c0 setno al\n\
e 0f924103 setb byte [ecx+0x3]\n\
e 0f93c1 setae cl\n\
e 0f944105 sete byte [ecx+0x5]\n\
e 0f95c2 setne dl\n\
- 0f964107 setbe byte [ecx+0x7]\n\
- 0f97c3 seta bl\n\
- 0f984109 sets byte [ecx+0x9]\n\
- 0f99c4 setns ah\n\
- 0f9a410b setp byte [ecx+0xb]\n\
- 0f9bc5 setnp ch\n\
- 0f9c410d setl byte [ecx+0xd]\n\
- 0f9dc6 setge dh\n\
- 0f9e410f setle byte [ecx+0xf]\n\
- 0f9fc7 setg bh\n\
e 0f4007 cmovo eax, dword [edi]\n\
e 0f41c5 cmovno eax, ebp\n\
e 0f420f cmovb ecx, dword [edi]\n\
e 0f43cd cmovae ecx, ebp\n\
e 0f4417 cmove edx, dword [edi]\n\
e 0f45d5 cmovne edx, ebp\n\
- 0f461f cmovbe ebx, dword [edi]\n\
- 0f47dd cmova ebx, ebp\n\
- 0f4827 cmovs esp, dword [edi]\n\
- 0f49e5 cmovns esp, ebp\n\
- 0f4a2f cmovp ebp, dword [edi]\n\
- 0f4bed cmovnp ebp, ebp\n\
- 0f4c37 cmovl esi, dword [edi]\n\
- 0f4df5 cmovge esi, ebp\n\
- 0f4e3f cmovle edi, dword [edi]\n\
- 0f4ffd cmovg edi, ebp\n\
e e8fbefffff call 0xfffff000\n\
e ff148500400000 call dword [eax*4+0x4000]\n\
e ffd2 call edx\n\
e c3 ret\n\
e c20000 ret 0x0\n\
- c2fcff ret 0xfffc\n\
e e900000000 jmp 0x5\n\
- e900000080 jmp 0x80000005\n\
e eb7f jmp short 0x81\n\
- eb80 jmp short 0xffffff82\n\
- ebfe jmp short 0x0\n\
e ff642404 jmp dword [esp+0x4]\n\
e ffe0 jmp eax\n\
e e2f4 loop 0xfffffff6\n\
e e30a jecxz 0xc\n\
e c9 leave\n\
e 99 cdq\n\
e 98 cwde\n\
e f8 clc\n\
e f9 stc\n\
e f5 cmc\n\
e 90 nop\n\
e f390 pause\n\
e f4 hlt\n\
e cc int3\n\
e 0f0b ud2\n\
e 0fa2 cpuid\n\
e 0faee8 lfence\n\
e 0faef0 mfence\n\
e 0faef8 sfence\n\
e 0f01d5 xend\n\
e 0f01d6 xtest\n\
e 0f1f00 nop dword [eax]\n\
e 0f1f840000020000 nop dword [eax+eax*1+0x200]\n\
e c7f800000000 xbegin 0x6\n\
- c7f8daffffff xbegin 0xffffffe0\n\
e c6f85a xabort 0x5a\n\
e f00108 lock add dword [eax], ecx\n\
e f0800003 lock add byte [eax], 0x3\n\
- f00908 lock or dword [eax], ecx\n\
- f0800803 lock or byte [eax], 0x3\n\
- f01108 lock adc dword [eax], ecx\n\
- f0801003 lock adc byte [eax], 0x3\n\
- f01908 lock sbb dword [eax], ecx\n\
- f0801803 lock sbb byte [eax], 0x3\n\
- f02108 lock and dword [eax], ecx\n\
- f0802003 lock and byte [eax], 0x3\n\
- f02908 lock sub dword [eax], ecx\n\
- f0802803 lock sub byte [eax], 0x3\n\
- f03108 lock xor dword [eax], ecx\n\
- f0803003 lock xor byte [eax], 0x3\n\
e f0ff03 lock inc dword [ebx]\n\
- f0fe0b lock dec byte [ebx]\n\
- f0f713 lock not dword [ebx]\n\
- f0f71b lock neg dword [ebx]\n\
e f08603 lock xchg byte [ebx], al\n\
e f08723 lock xchg dword [ebx], esp\n\
- f00fc103 lock xadd dword [ebx], eax\n\
e f00fb113 lock cmpxchg dword [ebx], edx\n\
e f00fba2b04 lock bts dword [ebx], 0x4\n\
- f00fba3304 lock btr dword [ebx], 0x4\n\
- f00fba3b04 lock btc dword [ebx], 0x4\n\
e 00eb add bl, ch\n\
e 015104 add dword [ecx+0x4], edx\n\
e 0216 add dl, byte [esi]\n\
e 037d00 add edi, dword [ebp]\n\
- 049c add al, 0x9c\n\
- 0578563412 add eax, 0x12345678\n\
e 80047381 add byte [ebx+esi*2], 0x81\n\
e 81c4efcdab89 add esp, 0x89abcdef\n\
e 8304c510000000fd add dword [eax*8+0x10], 0xfffffffd\n\
- 08eb or bl, ch\n\
- 095104 or dword [ecx+0x4], edx\n\
- 0a16 or dl, byte [esi]\n\
- 0b7d00 or edi, dword [ebp]\n\
- 0c9c or al, 0x9c\n\
- 0d78563412 or eax, 0x12345678\n\
- 800c7381 or byte [ebx+esi*2], 0x81\n\
- 81ccefcdab89 or esp, 0x89abcdef\n\
- 830cc510000000fd or dword [eax*8+0x10], 0xfffffffd\n\
- 10eb adc bl, ch\n\
- 115104 adc dword [ecx+0x4], edx\n\
- 1216 adc dl, byte [esi]\n\
- 137d00 adc edi, dword [ebp]\n\
- 149c adc al, 0x9c\n\
- 1578563412 adc eax, 0x12345678\n\
- 80147381 adc byte [ebx+esi*2], 0x81\n\
- 81d4efcdab89 adc esp, 0x89abcdef\n\
- 8314c510000000fd adc dword [eax*8+0x10], 0xfffffffd\n\
e 18eb sbb bl, ch\n\
e 195104 sbb dword [ecx+0x4], edx\n\
e 1a16 sbb dl, byte [esi]\n\
e 1b7d00 sbb edi, dword [ebp]\n\
- 1c9c sbb al, 0x9c\n\
- 1d78563412 sbb eax, 0x12345678\n\
e 801c7381 sbb byte [ebx+esi*2], 0x81\n\
e 81dcefcdab89 sbb esp, 0x89abcdef\n\
e 831cc510000000fd sbb dword [eax*8+0x10], 0xfffffffd\n\
- 20eb and bl, ch\n\
- 215104 and dword [ecx+0x4], edx\n\
- 2216 and dl, byte [esi]\n\
- 237d00 and edi, dword [ebp]\n\
- 249c and al, 0x9c\n\
- 2578563412 and eax, 0x12345678\n\
- 80247381 and byte [ebx+esi*2], 0x81\n\
- 81e4efcdab89 and esp, 0x89abcdef\n\
- 8324c510000000fd and dword [eax*8+0x10], 0xfffffffd\n\
- 28eb sub bl, ch\n\
- 295104 sub dword [ecx+0x4], edx\n\
- 2a16 sub dl, byte [esi]\n\
- 2b7d00 sub edi, dword [ebp]\n\
- 2c9c sub al, 0x9c\n\
- 2d78563412 sub eax, 0x12345678\n\
- 802c7381 sub byte [ebx+esi*2], 0x81\n\
- 81ecefcdab89 sub esp, 0x89abcdef\n\
- 832cc510000000fd sub dword [eax*8+0x10], 0xfffffffd\n\
- 30eb xor bl, ch\n\
- 315104 xor dword [ecx+0x4], edx\n\
- 3216 xor dl, byte [esi]\n\
- 337d00 xor edi, dword [ebp]\n\
- 349c xor al, 0x9c\n\
- 3578563412 xor eax, 0x12345678\n\
- 80347381 xor byte [ebx+esi*2], 0x81\n\
- 81f4efcdab89 xor esp, 0x89abcdef\n\
- 8334c510000000fd xor dword [eax*8+0x10], 0xfffffffd\n\
e 38eb cmp bl, ch\n\
e 395104 cmp dword [ecx+0x4], edx\n\
e 3a16 cmp dl, byte [esi]\n\
e 3b7d00 cmp edi, dword [ebp]\n\
- 3c9c cmp al, 0x9c\n\
- 3d78563412 cmp eax, 0x12345678\n\
e 803c7381 cmp byte [ebx+esi*2], 0x81\n\
e 81fcefcdab89 cmp esp, 0x89abcdef\n\
e 833cc510000000fd cmp dword [eax*8+0x10], 0xfffffffd\n\
e 40 inc eax\n\
- 41 inc ecx\n\
- 42 inc edx\n\
- 43 inc ebx\n\
- 44 inc esp\n\
- 45 inc ebp\n\
- 46 inc esi\n\
- 47 inc edi\n\
e 48 dec eax\n\
- 49 dec ecx\n\
- 4a dec edx\n\
- 4b dec ebx\n\
- 4c dec esp\n\
- 4d dec ebp\n\
- 4e dec esi\n\
- 4f dec edi\n\
e fe00 inc byte [eax]\n\
e fec5 inc ch\n\
e fe4801 dec byte [eax+0x1]\n\
e ff0500200000 inc dword [0x2000]\n\
e ff0c9500000000 dec dword [edx*4]\n\
e 840b test byte [ebx], cl\n\
e 85c8 test eax, ecx\n\
- a880 test al, 0x80\n\
- a980000000 test eax, 0x80\n\
e f6077f test byte [edi], 0x7f\n\
e f7470100000080 test dword [edi+0x1], 0x80000000\n\
e f756fc not dword [esi+0xfffffffc]\n\
e f7d3 not ebx\n\
e f75efc neg dword [esi+0xfffffffc]\n\
e f7db neg ebx\n\
e f766fc mul dword [esi+0xfffffffc]\n\
e f7e3 mul ebx\n\
e f76efc imul dword [esi+0xfffffffc]\n\
e f7eb imul ebx\n\
e f776fc div dword [esi+0xfffffffc]\n\
e f7f3 div ebx\n\
e f77efc idiv dword [esi+0xfffffffc]\n\
e f7fb idiv ebx\n\
e 0faf0a imul ecx, dword [edx]\n\
e 69ca00100000 imul ecx, edx, 0x1000\n\
e 6b3402f9 imul esi, dword [edx+eax*1], 0xfffffff9\n\
e c1c21f rol edx, 0x1f\n\
e d145f8 rol dword [ebp+0xfffffff8], 0x1\n\
e d3c7 rol edi, cl\n\
e c1ca1f ror edx, 0x1f\n\
e d14df8 ror dword [ebp+0xfffffff8], 0x1\n\
e d3cf ror edi, cl\n\
e c1e21f shl edx, 0x1f\n\
e d165f8 shl dword [ebp+0xfffffff8], 0x1\n\
e d3e7 shl edi, cl\n\
en c1ea1f shr edx, 0x1f\n\
e d16df8 shr dword [ebp+0xfffffff8], 0x1\n\
e d3ef shr edi, cl\n\
e c1fa1f sar edx, 0x1f\n\
e d17df8 sar dword [ebp+0xfffffff8], 0x1\n\
e d3ff sar edi, cl\n\
e 0fba201f bt dword [eax], 0x1f\n\
e 0fbae1ff bt ecx, 0xff\n\
e 0fba281f bts dword [eax], 0x1f\n\
e 0fbae9ff bts ecx, 0xff\n\
e 0fba301f btr dword [eax], 0x1f\n\
e 0fbaf1ff btr ecx, 0xff\n\
e 0fba381f btc dword [eax], 0x1f\n\
e 0fbaf9ff btc ecx, 0xff\n\
e 8b10 mov edx, dword [eax]\n\
e 8b11 mov edx, dword [ecx]\n\
e 8b12 mov edx, dword [edx]\n\
e 8b13 mov edx, dword [ebx]\n\
e 8b1424 mov edx, dword [esp]\n\
e 8b5500 mov edx, dword [ebp]\n\
e 8b16 mov edx, dword [esi]\n\
e 8b17 mov edx, dword [edi]\n\
e 8b507f mov edx, dword [eax+0x7f]\n\
e 8b5180 mov edx, dword [ecx+0xffffff80]\n\
e 8b9280000000 mov edx, dword [edx+0x80]\n\
e 8b937fffffff mov edx, dword [ebx+0xffffff7f]\n\
e 8b542401 mov edx, dword [esp+0x1]\n\
e 8b942400f0ffff mov edx, dword [esp+0xfffff000]\n\
e 8b55ff mov edx, dword [ebp+0xffffffff]\n\
e 8b9578563412 mov edx, dword [ebp+0x12345678]\n\
e 8b1500100000 mov edx, dword [0x1000]\n\
e 8b140d00000000 mov edx, dword [ecx*1]\n\
e 8b144d00000000 mov edx, dword [ecx*2]\n\
e 8b148d00000000 mov edx, dword [ecx*4]\n\
e 8b14cd00000080 mov edx, dword [ecx*8+0x80000000]\n\
e 8b1408 mov edx, dword [eax+ecx*1]\n\
e 8b1488 mov edx, dword [eax+ecx*4]\n\
e 8b546d00 mov edx, dword [ebp+ebp*2]\n\
e 8b14c4 mov edx, dword [esp+eax*8]\n\
e 8b54f705 mov edx, dword [edi+esi*8+0x5]\n\
e 8b947bccedffff mov edx, dword [ebx+edi*2+0xffffedcc]\n\
e 8b942c00010000 mov edx, dword [esp+ebp*1+0x100]\n\
e 89d8 mov eax, ebx\n\
e 88d8 mov al, bl\n\
- 89e1 mov ecx, esp\n\
- 88e1 mov cl, ah\n\
- 89ea mov edx, ebp\n\
- 88ea mov dl, ch\n\
- 89f3 mov ebx, esi\n\
- 88f3 mov bl, dh\n\
- 89fc mov esp, edi\n\
- 88fc mov ah, bh\n\
- 89c5 mov ebp, eax\n\
- 88c5 mov ch, al\n\
- 89ce mov esi, ecx\n\
- 88ce mov dh, cl\n\
- 89d7 mov edi, edx\n\
- 88d7 mov bh, dl\n\
- 8bcb mov ecx, ebx\n\
- 8acf mov cl, bh\n\
- 03c3 add eax, ebx\n\
- 3af0 cmp dh, al\n\
p 8b9501000000 mov edx, dword [ebp+0x1]\n\
p 8b9000000000 mov edx, dword [eax]\n\
- 8b5000 mov edx, dword [eax]\n\
- 8b542400 mov edx, dword [esp]\n\
e 8803 mov byte [ebx], al\n\
e 896508 mov dword [ebp+0x8], esp\n\
e 8a3f mov bh, byte [edi]\n\
e 8b742408 mov esi, dword [esp+0x8]\n\
- a000100000 mov al, byte [0x1000]\n\
- a1fcffffff mov eax, dword [0xfffffffc]\n\
- a200000080 mov byte [0x80000000], al\n\
- a304100000 mov dword [0x1004], eax\n\
e b0f0 mov al, 0xf0\n\
- b1f1 mov cl, 0xf1\n\
- b2f2 mov dl, 0xf2\n\
- b3f3 mov bl, 0xf3\n\
- b4f4 mov ah, 0xf4\n\
- b5f5 mov ch, 0xf5\n\
- b6f6 mov dh, 0xf6\n\
- b7f7 mov bh, 0xf7\n\
e b800000010 mov eax, 0x10000000\n\
- b901000020 mov ecx, 0x20000001\n\
- ba02000030 mov edx, 0x30000002\n\
- bb03000040 mov ebx, 0x40000003\n\
- bc04000050 mov esp, 0x50000004\n\
- bd05000060 mov ebp, 0x60000005\n\
- be06000070 mov esi, 0x70000006\n\
- bf07000080 mov edi, 0x80000007\n\
e c601ff mov byte [ecx], 0xff\n\
e c7050010000005000000 mov dword [0x1000], 0x5\n\
e 8d448500 lea eax, [ebp+eax*4]\n\
e 8d6424fc lea esp, [esp+0xfffffffc]\n\
e 861a xchg byte [edx], bl\n\
e 879a00010000 xchg dword [edx+0x100], ebx\n\
e 87fe xchg esi, edi\n\
- 92 xchg edx, eax\n\
- 93 xchg ebx, eax\n\
- 94 xchg esp, eax\n\
- 95 xchg ebp, eax\n\
- 96 xchg esi, eax\n\
- 97 xchg edi, eax\n\
e 0fb620 movzx esp, byte [eax]\n\
e 0fb6ec movzx ebp, ah\n\
e 0fbe3418 movsx esi, byte [eax+ebx*1]\n\
e 0fbefa movsx edi, dl\n\
e 0fb13e cmpxchg dword [esi], edi\n\
e 0fb1d1 cmpxchg ecx, edx\n\
e 0fc15604 xadd dword [esi+0x4], edx\n\
e 0fc1cb xadd ebx, ecx\n\
e 50 push eax\n\
- 51 push ecx\n\
- 52 push edx\n\
- 53 push ebx\n\
- 54 push esp\n\
- 55 push ebp\n\
- 56 push esi\n\
- 57 push edi\n\
e 58 pop eax\n\
- 59 pop ecx\n\
- 5a pop edx\n\
- 5b pop ebx\n\
- 5c pop esp\n\
- 5d pop ebp\n\
- 5e pop esi\n\
- 5f pop edi\n\
e 6878563412 push 0x12345678\n\
n 6805000000 push 0x5\n\
- 6a80 push 0xffffff80\n\
e ff7004 push dword [eax+0x4]\n\
e 8f0424 pop dword [esp]\n\
n 81c105000000 add ecx, 0x5\n\
n 813bffffffff cmp dword [ebx], 0xffffffff\n\
n 800305 add byte [ebx], 0x5\n\
n 69ca05000000 imul ecx, edx, 0x5\n\
n b805000000 mov eax, 0x5\n\
n eb0e jmp short 0x10\n\
p 888c2404000000 mov byte [esp+0x4], cl\n\
p 8dbcceffffffff lea edi, [esi+ecx*8+0xffffffff]\n\
p ff048d01000000 inc dword [ecx*4+0x1]\n\
p 83830000000005 add dword [ebx], 0x5\n";

/// By hand, from the tables of SDM volume 2A, "ModR/M and SIB Bytes", and the opcode pages: forms that assemblers
/// avoid.
pub(super) const BY_HAND: &str = "\
- 8b042500100000 mov eax, dword [0x1000]\n\
e 8b0500100000 mov eax, dword [0x1000]\n\
- a100100000 mov eax, dword [0x1000]\n\
- 8b4500 mov eax, dword [ebp]\n\
- 8b442400 mov eax, dword [esp]\n\
- 8b0464 mov eax, dword [esp]\n\
- 8b04a4 mov eax, dword [esp]\n\
- 8b04e4 mov eax, dword [esp]\n\
- 8b0420 mov eax, dword [eax]\n\
- 8b04e501000000 mov eax, dword [0x1]\n\
- 8b4425f0 mov eax, dword [ebp+0xfffffff0]\n\
- 8b8425f0000000 mov eax, dword [ebp+0xf0]\n\
- 8b048d00000000 mov eax, dword [ecx*4]\n\
- 91 xchg ecx, eax\n\
- c1e001 shl eax, 0x1\n\
- 81c005000000 add eax, 0x5\n\
- fff0 push eax\n\
e 880500100000 mov byte [0x1000], al\n\
e 87c1 xchg ecx, eax\n\
e 81c078563412 add eax, 0x12345678\n\
e 80f89c cmp al, 0x9c\n\
e f7c080000000 test eax, 0x80\n\
e f6c080 test al, 0x80\n\
n c1c301 rol ebx, 0x1\n\
- f08184880010000078563412 lock add dword [eax+ecx*4+0x1000], 0x12345678\n";

/// Bytes in hex that end within an instruction; the first row has none.
pub(super) const SHORT: &str = "\
\n\
f0\n\
f3\n\
f0f3\n\
0f\n\
0f01\n\
f00f\n\
8b05001000\n\
8b04\n\
c7f8000000\n\
c6f8\n\
f039\n";

/// Bytes in hex that begin no instruction.
pub(super) const NOT_IN_SUBSET: &str = "\
f0f0\n\
f340\n\
6690\n\
0f01d4\n\
0f0105\n\
0faee9\n\
0f1f08\n\
0f90c8\n\
0fbad8\n\
8dc0\n\
c658\n\
c7f9\n\
d1d0\n\
f6d0\n\
ff18\n\
fff8\n";

/// Bytes in hex with LOCK before an instruction that it may not stand before.
pub(super) const LOCK_NOT_ALLOWED: &str = "\
f0f390\n\
f08918\n\
f001d8\n\
f00318\n\
f03918\n\
f00fba2001\n\
f090\n\
f0f720\n";
