//! What nasm gives: made by tests-data/nasm_table.

/// Lines of source, and behind each as a comment the bytes that nasm gives for it at 100h, in hex.
pub(super) const LINES: &str = "\
add al, ch ; 00e8\n\
add [ebx+0x11], dl ; 005311\n\
add bh, [esi+edi*2] ; 023c7e\n\
add ecx, edx ; 01d1\n\
add [0x1000], esp ; 012500100000\n\
add edi, [ebp-8] ; 037df8\n\
add al, 0x80 ; 0480\n\
add eax, 0x12345678 ; 0578563412\n\
add dl, -128 ; 80c280\n\
add esi, -1 ; 83c6ff\n\
add ebx, 128 ; 81c380000000\n\
add byte [edi], 255 ; 8007ff\n\
add dword [esp+0x80], 127 ; 838424800000007f\n\
or al, ch ; 08e8\n\
or [ebx+0x11], dl ; 085311\n\
or bh, [esi+edi*2] ; 0a3c7e\n\
or ecx, edx ; 09d1\n\
or [0x1000], esp ; 092500100000\n\
or edi, [ebp-8] ; 0b7df8\n\
or al, 0x80 ; 0c80\n\
or eax, 0x12345678 ; 0d78563412\n\
or dl, -128 ; 80ca80\n\
or esi, -1 ; 83ceff\n\
or ebx, 128 ; 81cb80000000\n\
or byte [edi], 255 ; 800fff\n\
or dword [esp+0x80], 127 ; 838c24800000007f\n\
adc al, ch ; 10e8\n\
adc [ebx+0x11], dl ; 105311\n\
adc bh, [esi+edi*2] ; 123c7e\n\
adc ecx, edx ; 11d1\n\
adc [0x1000], esp ; 112500100000\n\
adc edi, [ebp-8] ; 137df8\n\
adc al, 0x80 ; 1480\n\
adc eax, 0x12345678 ; 1578563412\n\
adc dl, -128 ; 80d280\n\
adc esi, -1 ; 83d6ff\n\
adc ebx, 128 ; 81d380000000\n\
adc byte [edi], 255 ; 8017ff\n\
adc dword [esp+0x80], 127 ; 839424800000007f\n\
sbb al, ch ; 18e8\n\
sbb [ebx+0x11], dl ; 185311\n\
sbb bh, [esi+edi*2] ; 1a3c7e\n\
sbb ecx, edx ; 19d1\n\
sbb [0x1000], esp ; 192500100000\n\
sbb edi, [ebp-8] ; 1b7df8\n\
sbb al, 0x80 ; 1c80\n\
sbb eax, 0x12345678 ; 1d78563412\n\
sbb dl, -128 ; 80da80\n\
sbb esi, -1 ; 83deff\n\
sbb ebx, 128 ; 81db80000000\n\
sbb byte [edi], 255 ; 801fff\n\
sbb dword [esp+0x80], 127 ; 839c24800000007f\n\
and al, ch ; 20e8\n\
and [ebx+0x11], dl ; 205311\n\
and bh, [esi+edi*2] ; 223c7e\n\
and ecx, edx ; 21d1\n\
and [0x1000], esp ; 212500100000\n\
and edi, [ebp-8] ; 237df8\n\
and al, 0x80 ; 2480\n\
and eax, 0x12345678 ; 2578563412\n\
and dl, -128 ; 80e280\n\
and esi, -1 ; 83e6ff\n\
and ebx, 128 ; 81e380000000\n\
and byte [edi], 255 ; 8027ff\n\
and dword [esp+0x80], 127 ; 83a424800000007f\n\
sub al, ch ; 28e8\n\
sub [ebx+0x11], dl ; 285311\n\
sub bh, [esi+edi*2] ; 2a3c7e\n\
sub ecx, edx ; 29d1\n\
sub [0x1000], esp ; 292500100000\n\
sub edi, [ebp-8] ; 2b7df8\n\
sub al, 0x80 ; 2c80\n\
sub eax, 0x12345678 ; 2d78563412\n\
sub dl, -128 ; 80ea80\n\
sub esi, -1 ; 83eeff\n\
sub ebx, 128 ; 81eb80000000\n\
sub byte [edi], 255 ; 802fff\n\
sub dword [esp+0x80], 127 ; 83ac24800000007f\n\
xor al, ch ; 30e8\n\
xor [ebx+0x11], dl ; 305311\n\
xor bh, [esi+edi*2] ; 323c7e\n\
xor ecx, edx ; 31d1\n\
xor [0x1000], esp ; 312500100000\n\
xor edi, [ebp-8] ; 337df8\n\
xor al, 0x80 ; 3480\n\
xor eax, 0x12345678 ; 3578563412\n\
xor dl, -128 ; 80f280\n\
xor esi, -1 ; 83f6ff\n\
xor ebx, 128 ; 81f380000000\n\
xor byte [edi], 255 ; 8037ff\n\
xor dword [esp+0x80], 127 ; 83b424800000007f\n\
cmp al, ch ; 38e8\n\
cmp [ebx+0x11], dl ; 385311\n\
cmp bh, [esi+edi*2] ; 3a3c7e\n\
cmp ecx, edx ; 39d1\n\
cmp [0x1000], esp ; 392500100000\n\
cmp edi, [ebp-8] ; 3b7df8\n\
cmp al, 0x80 ; 3c80\n\
cmp eax, 0x12345678 ; 3d78563412\n\
cmp dl, -128 ; 80fa80\n\
cmp esi, -1 ; 83feff\n\
cmp ebx, 128 ; 81fb80000000\n\
cmp byte [edi], 255 ; 803fff\n\
cmp dword [esp+0x80], 127 ; 83bc24800000007f\n\
mov ah, bl ; 88dc\n\
mov [eax], cl ; 8808\n\
mov dh, [ecx+1] ; 8a7101\n\
mov esp, ebp ; 89ec\n\
mov [edx+ebx*8], esi ; 8934da\n\
mov edi, [esp] ; 8b3c24\n\
mov al, [0x1000] ; a000100000\n\
mov eax, [0x1000] ; a100100000\n\
mov [0x1000], al ; a200100000\n\
mov [0x1000], eax ; a300100000\n\
mov bh, 255 ; b7ff\n\
mov ecx, 1 ; b901000000\n\
mov byte [esi], -1 ; c606ff\n\
mov dword [edi+ebp*4], 0xffffffff ; c704afffffffff\n\
lea eax, [ebx] ; 8d03\n\
lea esi, [ecx*4] ; 8d348d00000000\n\
lea esp, [ebp+esi*8-0x80] ; 8d64f580\n\
lea edi, [0xfffffff0] ; 8d3df0ffffff\n\
xchg [eax], bl ; 8618\n\
xchg bl, [eax] ; 8618\n\
xchg ecx, eax ; 91\n\
xchg [esi], edi ; 873e\n\
xchg edi, [esi] ; 873e\n\
push ecx ; 51\n\
push 127 ; 6a7f\n\
push -128 ; 6a80\n\
push 128 ; 6880000000\n\
push dword [eax+ecx] ; ff3408\n\
pop edx ; 5a\n\
pop dword [esp+4] ; 8f442404\n\
leave ; c9\n\
movzx eax, cl ; 0fb6c1\n\
movzx edx, byte [ebp] ; 0fb65500\n\
movsx esi, bh ; 0fbef7\n\
movsx edi, byte [0x20] ; 0fbe3d20000000\n\
cmpxchg ecx, edx ; 0fb1d1\n\
cmpxchg [ebx], esi ; 0fb133\n\
xadd eax, ebx ; 0fc1d8\n\
xadd [ecx-1], edi ; 0fc179ff\n\
cdq ; 99\n\
cwde ; 98\n\
test bl, cl ; 84cb\n\
test [eax], dl ; 8410\n\
test dl, [eax] ; 8410\n\
test esi, edi ; 85fe\n\
test [ecx], ebx ; 8519\n\
test ebx, [ecx] ; 8519\n\
test al, 1 ; a801\n\
test eax, 1 ; a901000000\n\
test ch, 1 ; f6c501\n\
test ebp, 0x80000000 ; f7c500000080\n\
test byte [eax], 128 ; f60080\n\
test dword [eax], 128 ; f70080000000\n\
imul ecx, edx ; 0fafca\n\
imul esi, [edi] ; 0faf37\n\
imul eax, ebx, 5 ; 6bc305\n\
imul eax, [ebx], -129 ; 69037fffffff\n\
imul ecx, 127 ; 6bc97f\n\
inc ah ; fec4\n\
inc byte [ebp] ; fe4500\n\
inc edi ; 47\n\
inc dword [ecx*8+3] ; ff04cd03000000\n\
dec ah ; fecc\n\
dec byte [ebp] ; fe4d00\n\
dec edi ; 4f\n\
dec dword [ecx*8+3] ; ff0ccd03000000\n\
not ebx ; f7d3\n\
not dword [eax+0x7f] ; f7507f\n\
neg ebx ; f7db\n\
neg dword [eax+0x7f] ; f7587f\n\
mul ebx ; f7e3\n\
mul dword [eax+0x7f] ; f7607f\n\
imul ebx ; f7eb\n\
imul dword [eax+0x7f] ; f7687f\n\
div ebx ; f7f3\n\
div dword [eax+0x7f] ; f7707f\n\
idiv ebx ; f7fb\n\
idiv dword [eax+0x7f] ; f7787f\n\
rol eax, 0 ; c1c000\n\
rol ecx, 31 ; c1c11f\n\
rol edx, 1 ; d1c2\n\
rol ebx, cl ; d3c3\n\
rol dword [esi], 255 ; c106ff\n\
rol dword [edi], 1 ; d107\n\
rol dword [ebp+8], cl ; d34508\n\
ror eax, 0 ; c1c800\n\
ror ecx, 31 ; c1c91f\n\
ror edx, 1 ; d1ca\n\
ror ebx, cl ; d3cb\n\
ror dword [esi], 255 ; c10eff\n\
ror dword [edi], 1 ; d10f\n\
ror dword [ebp+8], cl ; d34d08\n\
shl eax, 0 ; c1e000\n\
shl ecx, 31 ; c1e11f\n\
shl edx, 1 ; d1e2\n\
shl ebx, cl ; d3e3\n\
shl dword [esi], 255 ; c126ff\n\
shl dword [edi], 1 ; d127\n\
shl dword [ebp+8], cl ; d36508\n\
shr eax, 0 ; c1e800\n\
shr ecx, 31 ; c1e91f\n\
shr edx, 1 ; d1ea\n\
shr ebx, cl ; d3eb\n\
shr dword [esi], 255 ; c12eff\n\
shr dword [edi], 1 ; d12f\n\
shr dword [ebp+8], cl ; d36d08\n\
sar eax, 0 ; c1f800\n\
sar ecx, 31 ; c1f91f\n\
sar edx, 1 ; d1fa\n\
sar ebx, cl ; d3fb\n\
sar dword [esi], 255 ; c13eff\n\
sar dword [edi], 1 ; d13f\n\
sar dword [ebp+8], cl ; d37d08\n\
bt esi, 31 ; 0fbae61f\n\
bt dword [edx+ecx], 255 ; 0fba240aff\n\
bts esi, 31 ; 0fbaee1f\n\
bts dword [edx+ecx], 255 ; 0fba2c0aff\n\
btr esi, 31 ; 0fbaf61f\n\
btr dword [edx+ecx], 255 ; 0fba340aff\n\
btc esi, 31 ; 0fbafe1f\n\
btc dword [edx+ecx], 255 ; 0fba3c0aff\n\
sal eax, 4 ; c1e004\n\
clc ; f8\n\
stc ; f9\n\
cmc ; f5\n\
nop ; 90\n\
nop eax ; 0f1fc0\n\
nop dword [eax+eax*1+0] ; 0f1f0400\n\
pause ; f390\n\
hlt ; f4\n\
int3 ; cc\n\
ud2 ; 0f0b\n\
cpuid ; 0fa2\n\
lfence ; 0faee8\n\
mfence ; 0faef0\n\
sfence ; 0faef8\n\
xabort 0xfe ; c6f8fe\n\
xend ; 0f01d5\n\
xtest ; 0f01d6\n\
jo near 0x180 ; 0f807a000000\n\
jo short 0x181 ; 707f\n\
seto dl ; 0f90c2\n\
cmovo ebp, [ecx+0x400] ; 0f40a900040000\n\
jno near 0x180 ; 0f817a000000\n\
jno short 0x181 ; 717f\n\
setno dl ; 0f91c2\n\
cmovno ebp, [ecx+0x400] ; 0f41a900040000\n\
jb near 0x180 ; 0f827a000000\n\
jb short 0x181 ; 727f\n\
setb dl ; 0f92c2\n\
cmovb ebp, [ecx+0x400] ; 0f42a900040000\n\
jc near 0x180 ; 0f827a000000\n\
jc short 0x181 ; 727f\n\
setc dl ; 0f92c2\n\
cmovc ebp, [ecx+0x400] ; 0f42a900040000\n\
jnae near 0x180 ; 0f827a000000\n\
jnae short 0x181 ; 727f\n\
setnae dl ; 0f92c2\n\
cmovnae ebp, [ecx+0x400] ; 0f42a900040000\n\
jae near 0x180 ; 0f837a000000\n\
jae short 0x181 ; 737f\n\
setae dl ; 0f93c2\n\
cmovae ebp, [ecx+0x400] ; 0f43a900040000\n\
jnb near 0x180 ; 0f837a000000\n\
jnb short 0x181 ; 737f\n\
setnb dl ; 0f93c2\n\
cmovnb ebp, [ecx+0x400] ; 0f43a900040000\n\
jnc near 0x180 ; 0f837a000000\n\
jnc short 0x181 ; 737f\n\
setnc dl ; 0f93c2\n\
cmovnc ebp, [ecx+0x400] ; 0f43a900040000\n\
je near 0x180 ; 0f847a000000\n\
je short 0x181 ; 747f\n\
sete dl ; 0f94c2\n\
cmove ebp, [ecx+0x400] ; 0f44a900040000\n\
jz near 0x180 ; 0f847a000000\n\
jz short 0x181 ; 747f\n\
setz dl ; 0f94c2\n\
cmovz ebp, [ecx+0x400] ; 0f44a900040000\n\
jne near 0x180 ; 0f857a000000\n\
jne short 0x181 ; 757f\n\
setne dl ; 0f95c2\n\
cmovne ebp, [ecx+0x400] ; 0f45a900040000\n\
jnz near 0x180 ; 0f857a000000\n\
jnz short 0x181 ; 757f\n\
setnz dl ; 0f95c2\n\
cmovnz ebp, [ecx+0x400] ; 0f45a900040000\n\
jbe near 0x180 ; 0f867a000000\n\
jbe short 0x181 ; 767f\n\
setbe dl ; 0f96c2\n\
cmovbe ebp, [ecx+0x400] ; 0f46a900040000\n\
jna near 0x180 ; 0f867a000000\n\
jna short 0x181 ; 767f\n\
setna dl ; 0f96c2\n\
cmovna ebp, [ecx+0x400] ; 0f46a900040000\n\
ja near 0x180 ; 0f877a000000\n\
ja short 0x181 ; 777f\n\
seta dl ; 0f97c2\n\
cmova ebp, [ecx+0x400] ; 0f47a900040000\n\
jnbe near 0x180 ; 0f877a000000\n\
jnbe short 0x181 ; 777f\n\
setnbe dl ; 0f97c2\n\
cmovnbe ebp, [ecx+0x400] ; 0f47a900040000\n\
js near 0x180 ; 0f887a000000\n\
js short 0x181 ; 787f\n\
sets dl ; 0f98c2\n\
cmovs ebp, [ecx+0x400] ; 0f48a900040000\n\
jns near 0x180 ; 0f897a000000\n\
jns short 0x181 ; 797f\n\
setns dl ; 0f99c2\n\
cmovns ebp, [ecx+0x400] ; 0f49a900040000\n\
jp near 0x180 ; 0f8a7a000000\n\
jp short 0x181 ; 7a7f\n\
setp dl ; 0f9ac2\n\
cmovp ebp, [ecx+0x400] ; 0f4aa900040000\n\
jpe near 0x180 ; 0f8a7a000000\n\
jpe short 0x181 ; 7a7f\n\
setpe dl ; 0f9ac2\n\
cmovpe ebp, [ecx+0x400] ; 0f4aa900040000\n\
jnp near 0x180 ; 0f8b7a000000\n\
jnp short 0x181 ; 7b7f\n\
setnp dl ; 0f9bc2\n\
cmovnp ebp, [ecx+0x400] ; 0f4ba900040000\n\
jpo near 0x180 ; 0f8b7a000000\n\
jpo short 0x181 ; 7b7f\n\
setpo dl ; 0f9bc2\n\
cmovpo ebp, [ecx+0x400] ; 0f4ba900040000\n\
jl near 0x180 ; 0f8c7a000000\n\
jl short 0x181 ; 7c7f\n\
setl dl ; 0f9cc2\n\
cmovl ebp, [ecx+0x400] ; 0f4ca900040000\n\
jnge near 0x180 ; 0f8c7a000000\n\
jnge short 0x181 ; 7c7f\n\
setnge dl ; 0f9cc2\n\
cmovnge ebp, [ecx+0x400] ; 0f4ca900040000\n\
jge near 0x180 ; 0f8d7a000000\n\
jge short 0x181 ; 7d7f\n\
setge dl ; 0f9dc2\n\
cmovge ebp, [ecx+0x400] ; 0f4da900040000\n\
jnl near 0x180 ; 0f8d7a000000\n\
jnl short 0x181 ; 7d7f\n\
setnl dl ; 0f9dc2\n\
cmovnl ebp, [ecx+0x400] ; 0f4da900040000\n\
jle near 0x180 ; 0f8e7a000000\n\
jle short 0x181 ; 7e7f\n\
setle dl ; 0f9ec2\n\
cmovle ebp, [ecx+0x400] ; 0f4ea900040000\n\
jng near 0x180 ; 0f8e7a000000\n\
jng short 0x181 ; 7e7f\n\
setng dl ; 0f9ec2\n\
cmovng ebp, [ecx+0x400] ; 0f4ea900040000\n\
jg near 0x180 ; 0f8f7a000000\n\
jg short 0x181 ; 7f7f\n\
setg dl ; 0f9fc2\n\
cmovg ebp, [ecx+0x400] ; 0f4fa900040000\n\
jnle near 0x180 ; 0f8f7a000000\n\
jnle short 0x181 ; 7f7f\n\
setnle dl ; 0f9fc2\n\
cmovnle ebp, [ecx+0x400] ; 0f4fa900040000\n\
setz byte [eax] ; 0f9400\n\
cmovnz esp, eax ; 0f45e0\n\
jmp near 0x80 ; e97bffffff\n\
jmp 0x10000 ; e9fbfe0000\n\
jmp short 0x82 ; eb80\n\
jmp eax ; ffe0\n\
jmp dword [ebx] ; ff23\n\
jmp [ecx*4+0x200] ; ff248d00020000\n\
call 0x100 ; e8fbffffff\n\
call near 0 ; e8fbfeffff\n\
call edx ; ffd2\n\
call dword [0x40] ; ff1540000000\n\
ret ; c3\n\
ret 8 ; c20800\n\
ret 65535 ; c2ffff\n\
loop 0x100 ; e2fe\n\
jecxz 0x102 ; e300\n\
xbegin 0x120 ; c7f81a000000\n\
lock add [eax], cl ; f00008\n\
lock add dword [ebx+1], 0x100 ; f081430100010000\n\
lock or [eax], cl ; f00808\n\
lock or dword [ebx+1], 0x100 ; f0814b0100010000\n\
lock adc [eax], cl ; f01008\n\
lock adc dword [ebx+1], 0x100 ; f081530100010000\n\
lock sbb [eax], cl ; f01808\n\
lock sbb dword [ebx+1], 0x100 ; f0815b0100010000\n\
lock and [eax], cl ; f02008\n\
lock and dword [ebx+1], 0x100 ; f081630100010000\n\
lock sub [eax], cl ; f02808\n\
lock sub dword [ebx+1], 0x100 ; f0816b0100010000\n\
lock xor [eax], cl ; f03008\n\
lock xor dword [ebx+1], 0x100 ; f081730100010000\n\
lock inc dword [ebp+esi] ; f0ff443500\n\
lock dec dword [ebp+esi] ; f0ff4c3500\n\
lock not dword [ebp+esi] ; f0f7543500\n\
lock neg dword [ebp+esi] ; f0f75c3500\n\
lock bts dword [0x44], 7 ; f00fba2d4400000007\n\
lock btr dword [0x44], 7 ; f00fba354400000007\n\
lock btc dword [0x44], 7 ; f00fba3d4400000007\n\
lock inc byte [edx] ; f0fe02\n\
lock dec byte [edx] ; f0fe0a\n\
lock xchg [edi], bl ; f0861f\n\
lock xchg ecx, [eax] ; f08708\n\
lock xadd [edi], ecx ; f00fc10f\n\
lock cmpxchg [esp+0x10], ebx ; f00fb15c2410\n\
mov eax, [ebp] ; 8b4500\n\
mov eax, [ebp+127] ; 8b457f\n\
mov eax, [ebp+128] ; 8b8580000000\n\
mov eax, [ebp-128] ; 8b4580\n\
mov eax, [ebp-129] ; 8b857fffffff\n\
mov eax, [esp-1] ; 8b4424ff\n\
mov eax, [eax+esp] ; 8b0404\n\
mov eax, [ecx+ebp] ; 8b0429\n\
mov eax, [ecx*2+edx] ; 8b044a\n\
mov eax, [8*ecx+ebp] ; 8b44cd00\n\
mov eax, [ebp+8*ecx] ; 8b44cd00\n\
mov eax, [ebp+eax] ; 8b440500\n\
mov eax, [ecx*4-1] ; 8b048dffffffff\n\
mov eax, [4+edx+4] ; 8b4208\n\
mov eax, [edx-4+ecx] ; 8b440afc\n\
mov eax, [edi*8+0x12345678] ; 8b04fd78563412\n\
MOV EAX, [EBX+ESI] ; 8b0433\n\
mov\tecx ,  7\t; a comment ; b907000000\n\
mov ecx, 0ffh ; b9ff000000\n\
mov ecx, 1011b ; b90b000000\n\
mov ecx, 'A' ; b941000000\n\
mov ecx, \"z\"-'a' ; b919000000\n\
mov ecx, 1+2-3+4 ; b904000000\n\
mov ecx, -1-2 ; b9fdffffff\n\
mov ecx, 0xdeadbeef ; b9efbeadde\n\
here: jmp near here ; e9fbffffff\n\
here jmp short here ; ebfe\n\
here: jnz near here ; 0f85faffffff\n\
here: call here+1 ; e8fcffffff\n\
here: loop here ; e2fe\n\
here: xbegin here ; c7f8faffffff\n\
here: mov eax, [here] ; a100010000\n\
here: mov [here+ecx*4-1], edx ; 89148dff000000\n\
here: mov ecx, here ; b900010000\n\
here: push here ; 6800010000\n\
here: add eax, here ; 0500010000\n\
here: add ebx, here ; 81c300010000\n\
here: lea esi, [ebx+here] ; 8db300010000\n\
here: cmp dword [here], here+2 ; 813d0001000002010000\n\
.here: jmp short .here+2 ; eb00\n\
db 1, -1, 255, 'a', \"bc\", 'd' ; 01ffff61626364\n\
dd 1, -1, 0xffffffff, 'a' ; 01000000ffffffffffffffff61000000\n\
here: dd here, here-1 ; 00010000ff000000\n\
resb 3 ; 000000\n\
";
