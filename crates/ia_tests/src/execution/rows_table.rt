//! Instructions and what they come to, one in a row.
//!
//! A row has, between semicolons, the bytes in hex, the instruction as it is printed at address 0, what it is given and
//! what it comes to. Given are registers, the six flags as their sum, what is `loaded` and the `depth` of transactions,
//! in hex; what is not named is 0, but that ESP to EDI are 8000h, 9000h, A000h and B000h. The instruction stands at
//! 1000h. It comes to `goes` with what is changed, EIP standing behind the instruction where it is not named, and
//! `byte[A]` or `dword[A]` for a store; or to `halt`, `end`, `begin` with the fallback, `fault` with its name, or
//! `abort` with its name or the code of XABORT.

/// All rows, by what they show.
pub(super) const TABLES: [&str; 20] = [
    ROTATIONS,
    PRODUCTS,
    BYTES,
    CARRY,
    DESTINATIONS,
    COMPARISONS,
    MOVES,
    EXCHANGES,
    COMPARED,
    SHIFTS,
    PUSHES,
    POPS,
    CALLS,
    JUMPS,
    NOTHING,
    OUTSIDE,
    INSIDE,
    TRANSACTIONS,
    XTEST,
    CPUID,
];

/// Rotations by CL and by a number.
const ROTATIONS: &str = "\
d3c8; ror eax, cl; eax=1 ecx=8021 flags=44; goes eax=80000000 flags=845\n\
d1c8; ror eax, 0x1; eax=1 ecx=8021 flags=44; goes eax=80000000 flags=845\n";

/// Products and quotients in EAX and EDX.
const PRODUCTS: &str = "\
f7e1; mul ecx; eax=10000 ecx=10000 edx=9; goes eax=0 edx=1 flags=801\n\
f7e9; imul ecx; eax=80000000 ecx=ffffffff edx=9; goes eax=80000000 edx=0 flags=801\n\
f7f9; idiv ecx; eax=fffffff9 ecx=2 edx=ffffffff; goes eax=fffffffd edx=ffffffff\n\
f7f1; div ecx; eax=9 ecx=2; goes eax=4 edx=1\n\
0fafc8; imul ecx, eax; eax=3 ecx=5; goes ecx=f\n\
6bd0ff; imul edx, eax, 0xffffffff; eax=3 ecx=5; goes edx=fffffffd\n";

/// Byte registers and immediates.
const BYTES: &str = "\
80c4aa; add ah, 0xaa; eax=123456ff; goes eax=123400ff flags=55\n\
fec0; inc al; eax=123456ff; goes eax=12345600 flags=54\n\
49; dec ecx; eax=123456ff; goes ecx=ffffffff flags=94\n\
86e0; xchg al, ah; eax=123456ff; goes eax=1234ff56\n\
88c5; mov ch, al; eax=123456ff; goes ecx=ff00\n\
f7db; neg ebx; ebx=80000000; goes ebx=80000000 flags=885\n";

/// The carry alone.
const CARRY: &str = "\
f8; clc; flags=8d5; goes flags=8d4\n\
f9; stc; flags=8d4; goes flags=8d5\n\
f5; cmc; flags=8d4; goes flags=8d5\n\
f5; cmc; flags=8d5; goes flags=8d4\n";

/// A destination in memory is loaded and stored.
const DESTINATIONS: &str = "\
83448bfe01; add dword [ebx+ecx*4+0xfffffffe], 0x1; \
eax=1000 ecx=3 ebx=fffffffc loaded=ffffffff; goes flags=55 dword[6]=0\n\
284c8bfe; sub byte [ebx+ecx*4+0xfffffffe], cl; eax=1000 ecx=3 ebx=fffffffc loaded=2; goes flags=95 byte[6]=ff\n\
0b4c8bfe; or ecx, dword [ebx+ecx*4+0xfffffffe]; eax=1000 ecx=3 ebx=fffffffc loaded=10; goes ecx=13\n\
ff448bfe; inc dword [ebx+ecx*4+0xfffffffe]; eax=1000 ecx=3 ebx=fffffffc loaded=7; goes dword[6]=8\n";

/// Comparisons store nothing.
const COMPARISONS: &str = "\
833d0020000001; cmp dword [0x2000], 0x1; eax=1000 ecx=3 loaded=1; goes flags=44\n\
f6050020000080; test byte [0x2000], 0x80; eax=1000 ecx=3 loaded=80; goes flags=80\n\
0fba250020000021; bt dword [0x2000], 0x21; eax=1000 ecx=3 loaded=2; goes flags=1\n\
0fba2d0020000021; bts dword [0x2000], 0x21; eax=1000 ecx=3; goes dword[2000]=2\n";

/// Moves to and from memory.
const MOVES: &str = "\
886804; mov byte [eax+0x4], ch; eax=1000 ecx=123456ff; goes byte[1004]=56\n\
c74004ffffffff; mov dword [eax+0x4], 0xffffffff; eax=1000 ecx=123456ff; goes dword[1004]=ffffffff\n\
8a4804; mov cl, byte [eax+0x4]; eax=1000 ecx=123456ff loaded=80; goes ecx=12345680\n\
0fbe5004; movsx edx, byte [eax+0x4]; eax=1000 ecx=123456ff loaded=80; goes edx=ffffff80\n\
8d5004; lea edx, [eax+0x4]; eax=1000 ecx=123456ff; goes edx=1004\n\
0f954004; setne byte [eax+0x4]; eax=1000 ecx=123456ff; goes byte[1004]=1\n\
0f444804; cmove ecx, dword [eax+0x4]; eax=1000 ecx=123456ff loaded=9; goes\n";

/// Exchanges store at the old address.
const EXCHANGES: &str = "\
874004; xchg dword [eax+0x4], eax; eax=1000 loaded=7; goes eax=7 dword[1004]=1000\n\
0fc14004; xadd dword [eax+0x4], eax; eax=1000 loaded=7; goes eax=7 dword[1004]=1007\n";

/// CMPXCHG writes back what it loaded where the comparison fails.
const COMPARED: &str = "\
0fb10d00200000; cmpxchg dword [0x2000], ecx; eax=5 ecx=9 loaded=5; goes flags=44 dword[2000]=9\n\
0fb10d00200000; cmpxchg dword [0x2000], ecx; eax=5 ecx=9 loaded=4; goes eax=4 dword[2000]=4\n";

/// A shift by 0 writes back.
const SHIFTS: &str = "\
d32500200000; shl dword [0x2000], cl; ecx=20 flags=8d5 loaded=80000001; goes dword[2000]=80000001\n\
d12500200000; shl dword [0x2000], 0x1; ecx=20 flags=8d5 loaded=80000001; goes flags=811 dword[2000]=2\n";

/// PUSH stores below the top.
const PUSHES: &str = "\
55; push ebp; ebp=55; goes esp=7ffc dword[7ffc]=55\n\
54; push esp; ebp=55; goes esp=7ffc dword[7ffc]=8000\n\
6aff; push 0xffffffff; ebp=55; goes esp=7ffc dword[7ffc]=ffffffff\n\
ff742404; push dword [esp+0x4]; ebp=55 loaded=9; goes esp=7ffc dword[7ffc]=9\n\
55; push ebp; esp=2 ebp=1; goes esp=fffffffe dword[fffffffe]=1\n";

/// POP raises the top first.
const POPS: &str = "\
5d; pop ebp; ebp=55 loaded=9; goes esp=8004 ebp=9\n\
5c; pop esp; ebp=55 loaded=9; goes esp=9\n\
8f442404; pop dword [esp+0x4]; ebp=55 loaded=9; goes esp=8004 dword[8008]=9\n\
c9; leave; ebp=55 loaded=9; goes esp=59 ebp=9\n";

/// Calls and returns.
const CALLS: &str = "\
e800f0ffff; call 0xfffff005; ebp=55; goes esp=7ffc eip=5 dword[7ffc]=1005\n\
ff542404; call dword [esp+0x4]; ebp=55 loaded=1234; goes esp=7ffc eip=1234 dword[7ffc]=1004\n\
ffd4; call esp; ebp=55; goes esp=7ffc eip=8000 dword[7ffc]=1002\n\
c3; ret; ebp=55 loaded=1234; goes esp=8004 eip=1234\n\
c2fcff; ret 0xfffc; ebp=55 loaded=1234; goes esp=18000 eip=1234\n";

/// Jumps count from the end of the instruction.
const JUMPS: &str = "\
e910000000; jmp 0x15; ebp=55 flags=8d5; goes eip=1015\n\
ebff; jmp short 0x1; ebp=55 flags=8d5; goes eip=1001\n\
0f82faefffff; jb 0xfffff000; ebp=55 flags=8d5; goes eip=0\n\
ffe5; jmp ebp; ebp=55 flags=8d5; goes eip=55\n\
ff642404; jmp dword [esp+0x4]; ebp=55 flags=8d5 loaded=77; goes eip=77\n";

/// Instructions that change nothing but EIP.
const NOTHING: &str = "\
90; nop; ebp=55 flags=8d5; goes\n\
0f1f442404; nop dword [esp+0x4]; ebp=55 flags=8d5; goes\n\
0faee8; lfence; ebp=55 flags=8d5; goes\n\
0faef0; mfence; ebp=55 flags=8d5; goes\n\
0faef8; sfence; ebp=55 flags=8d5; goes\n";

/// Faults and stops outside of transactions.
const OUTSIDE: &str = "\
0f0b; ud2; edx=1 ebx=1; fault Undefined\n\
cc; int3; edx=1 ebx=1; fault Breakpoint\n\
0f01d5; xend; edx=1 ebx=1; fault Protection\n\
f4; hlt; edx=1 ebx=1; halt\n\
f7f3; div ebx; edx=1 ebx=1; fault Divide\n\
f7f8; idiv eax; edx=1 ebx=1; fault Divide\n\
f390; pause; edx=1 ebx=1; goes\n\
c6f805; xabort 0x5; edx=1 ebx=1; goes\n";

/// Aborts inside.
const INSIDE: &str = "\
0f0b; ud2; edx=1 ebx=1 depth=1; abort Other\n\
f4; hlt; edx=1 ebx=1 depth=1; abort Other\n\
0fa2; cpuid; edx=1 ebx=1 depth=7; abort Other\n\
f390; pause; edx=1 ebx=1 depth=1; abort Other\n\
f7f3; div ebx; edx=1 ebx=1 depth=1; abort Other\n\
f7f8; idiv eax; edx=1 ebx=1 depth=2; abort Other\n\
cc; int3; edx=1 ebx=1 depth=1; abort Debug\n\
c6f8ab; xabort 0xab; edx=1 ebx=1 depth=1; abort ab\n\
c7f800000000; xbegin 0x6; edx=1 ebx=1 depth=7; abort Nest\n";

/// Transactions begin and end.
const TRANSACTIONS: &str = "\
c7f8faefffff; xbegin 0xfffff000; eax=1 ecx=2 edx=3 ebx=4; begin 0\n\
c7f8faefffff; xbegin 0xfffff000; eax=1 ecx=2 edx=3 ebx=4 depth=6; begin 0\n\
c7f820000000; xbegin 0x26; eax=1 ecx=2 edx=3 ebx=4 depth=1; begin 1026\n\
0f01d5; xend; eax=1 ecx=2 edx=3 ebx=4 depth=1; end\n\
0f01d5; xend; eax=1 ecx=2 edx=3 ebx=4 depth=7; end\n";

/// XTEST tells by the zero flag.
const XTEST: &str = "\
0f01d6; xtest; flags=8d5; goes flags=40\n\
0f01d6; xtest; flags=8d5 depth=1; goes flags=0\n";

/// Leaves of CPUID.
const CPUID: &str = "\
0fa2; cpuid; ecx=9 edx=9 ebx=9; goes eax=7 ecx=6c65746e edx=49656e69 ebx=756e6547\n\
0fa2; cpuid; eax=7 edx=9 ebx=9; goes eax=0 edx=0 ebx=800\n\
0fa2; cpuid; eax=7 ecx=1 edx=9 ebx=9; goes eax=0 ecx=0 edx=0 ebx=0\n\
0fa2; cpuid; eax=1 ecx=9 edx=9 ebx=9; goes eax=0 ecx=0 edx=0 ebx=0\n";
