use crate::faults::LineFault;
use crate::source::{DialectFault, plain_source};

// Texts of the dialect, and what stands for them.
const TEXTS: [(&[u8], &[u8]); 27] = [
    (
        b"a EQU 1\n b\n MOV R0,#a+2*3\n",
        b" ; a EQU 1\n b\n MOV R0,#7 ;  MOV R0,#a+2*3\n",
    ),
    (
        b"x * &10 ; sixteen\n DCD x,lab, x:SHL:2 + 1 ,-1\n",
        b" ; x * &10 ; sixteen\n DCD 16,lab, 65,4294967295 ;  DCD x,lab, x:SHL:2 + 1 ,-1\n",
    ),
    (
        b"p_ EQU 4\nq rn p_+1\n MOV q,Q\n",
        b" ; p_ EQU 4\n ; q rn p_+1\n MOV R5,Q ;  MOV q,Q\n",
    ),
    (
        b"base RN 12\nof EQU 8\nl LDR base,[base,#-of]!\n STMFD SP!,{base,R0-base,pc}^\n",
        b" ; base RN 12\n ; of EQU 8\nl LDR R12,[R12,#-8]! ; l LDR base,[base,#-of]!\n \
          STMFD SP!,{R12,R0-R12,pc}^ ;  STMFD SP!,{base,R0-base,pc}^\n",
    ),
    (
        b" MOVHS R0,R1,LSL #2+1\n blo lab ; b\n BLHS x\n CMPLOP R1,#':'\n BICHSS R1,R1,#'A'",
        b" MOVCS R0,R1,LSL #3 ;  MOVHS R0,R1,LSL #2+1\n bcc lab ;  blo lab ; b\n BLCS x ;  BLHS x\n \
          CMPCCP R1,#58 ;  CMPLOP R1,#':'\n BICCSS R1,R1,#65 ;  BICHSS R1,R1,#'A'\n",
    ),
    (
        b" ORG &8000+4*2\n SWI 1<<17\n DCD (2+3)*4, 10/3, 10:MOD:3, -2-3, :NOT:0, 2+3:SHL:1, 1:OR:6:AND:4\n",
        b" ORG 32776 ;  ORG &8000+4*2\n SWI 131072 ;  SWI 1<<17\n \
          DCD 20, 3, 1, 4294967291, 4294967295, 8, 4 ;  \
          DCD (2+3)*4, 10/3, 10:MOD:3, -2-3, :NOT:0, 2+3:SHL:1, 1:OR:6:AND:4\n",
    ),
    (
        b" ADD R0, R1 , # 4\nlab\n",
        b" ADD R0, R1 , #4 ;  ADD R0, R1 , # 4\nlab\n",
    ),
    (
        b" LDRB R1,[R2],#0-4\n",
        b" LDRB R1,[R2],#-4 ;  LDRB R1,[R2],#0-4\n",
    ),
    (
        b" MOVS R0,#-1\n CMP R1,# -4\n addlo r2,r2,#-4\n ANDEQS R3,R4,#&FFFFFF00\n",
        b" MVNS R0,#0 ;  MOVS R0,#-1\n CMN R1,#4 ;  CMP R1,# -4\n subcc r2,r2,#4 ;  addlo r2,r2,#-4\n \
          BICEQS R3,R4,#255 ;  ANDEQS R3,R4,#&FFFFFF00\n",
    ),
    (
        b" MOV R0,#-1,0\n ADD R0,R1,R2,LSL #31\n MOV R0,#&102\n SUB R1,R1,#256\n ORR R0,R0,#-1\n",
        b" MVN R0,#0,0 ;  MOV R0,#-1,0\n ADD R0,R1,R2,LSL #31\n MOV R0,#&102\n SUB R1,R1,#256\n \
          ORR R0,R0,#4294967295 ;  ORR R0,R0,#-1\n",
    ),
    (
        b" DCD 2_1010,9_17,0x1F,8_777\n",
        b" DCD 10,16,0x1F,511 ;  DCD 2_1010,9_17,0x1F,8_777\n",
    ),
    (
        b"x NOP ; none\n nop\n",
        b"x MOV R0,R0 ; x NOP ; none\n MOV R0,R0 ;  nop\n",
    ),
    (
        b"A0 EQU 16\n B &A0\n LDR R1,A0\n",
        b" ; A0 EQU 16\n B &A0\n LDR R1,A0\n",
    ),
    (
        b" MOV R0,#2   ; two\n DCD &10 , 0x1F,7 ; three\n LDR R0,[R1,#&10 ]\n SUB R0,R0,#1 \t\n",
        b" MOV R0,#2   ; two\n DCD &10, 0x1F,7 ;  DCD &10 , 0x1F,7 ; three\n \
          LDR R0,[R1,#&10] ;  LDR R0,[R1,#&10 ]\n SUB R0,R0,#1 \t\n",
    ),
    (
        b"A0 RN 5\n DCD &A0, &a0\n LDR A0,[A0],#4294967292\n SWI &11 ; stop\n",
        b" ; A0 RN 5\n DCD &A0, &a0\n LDR R5,[R5],#-4 ;  LDR A0,[A0],#4294967292\n SWI &11 ; stop\n",
    ),
    (
        b"a EQU b + 1\nf RN last\nb EQU 2\nlast EQU 12\n MOV f,#a\n",
        b" ; a EQU b + 1\n ; f RN last\n ; b EQU 2\n ; last EQU 12\n MOV R12,#3 ;  MOV f,#a\n",
    ),
    (
        b" TTL Card\n AREA |Code|, CODE, READONLY\n ENTRY\nn EQU 2\n ASSERT n<4 :LAND: (n:SHL:1=4)\n \
          ASSERT :LNOT:(n>=3)\nl KEEP\n MOV R0,#n\n END\nn EQU 3\n\n GARBAGE,\n",
        b" ;  TTL Card\n ;  AREA |Code|, CODE, READONLY\n ;  ENTRY\n ; n EQU 2\n \
          ;  ASSERT n<4 :LAND: (n:SHL:1=4)\n ;  ASSERT :LNOT:(n>=3)\nl ; l KEEP\n \
          MOV R0,#2 ;  MOV R0,#n\n ;  END\n ; n EQU 3\n\n ;  GARBAGE,\n",
    ),
    (
        b" ^ 4\na # 8\n # 2*2\nb FIELD 1\n MOV R0,#a\n DCD b\n",
        b" ;  ^ 4\n ; a # 8\n ;  # 2*2\n ; b FIELD 1\n MOV R0,#4 ;  MOV R0,#a\n DCD 16 ;  DCD b\n",
    ),
    (
        b"w RN 12\n ^ 0-4,w\nx # 4\ny # 8\n LDR R0,x\n STRB R1, y ; y\n ADRNE R2,y\n LDR R3,l\n\
          l ADR R4,l\n MAP 8,r1\nz # 0\n adr r0,z\n",
        b" ; w RN 12\n ;  ^ 0-4,w\n ; x # 4\n ; y # 8\n LDR R0,[R12,#-4] ;  LDR R0,x\n \
          STRB R1, [R12,#0] ;  STRB R1, y ; y\n ADDNE R2,R12,#0 ;  ADRNE R2,y\n LDR R3,l\n\
          l ADR R4,l\n ;  MAP 8,r1\n ; z # 0\n add r0,R1,#8 ;  adr r0,z\n",
    ),
    (
        b"n EQU 2\n [ n=2\na EQU 5\n |\na EQU 6\n ]\n MOV R0,#a\n",
        b" ; n EQU 2\n ;  [ n=2\n ; a EQU 5\n ;  |\n ; a EQU 6\n ;  ]\n MOV R0,#5 ;  MOV R0,#a\n",
    ),
    (
        b" IF 1>2\n [ what\n GARBAGE,\n |\n ]\n END\n ELSE ;\n NOP\n ENDIF ; done\n",
        b" ;  IF 1>2\n ;  [ what\n ;  GARBAGE,\n ;  |\n ;  ]\n ;  END\n ;  ELSE ;\n \
          MOV R0,R0 ;  NOP\n ;  ENDIF ; done\n",
    ),
    (
        b"[ 1=1\n [ 1=1\n |\n MOV R0,#1\n ]\n | \n [\n |\n x,\n ]\n]\n",
        b" ; [ 1=1\n ;  [ 1=1\n ;  |\n ;  MOV R0,#1\n ;  ]\n ;  | \n ;  [\n ;  |\n ;  x,\n ;  ]\n ; ]\n",
    ),
    (
        b" LDR R0,=5\n ldrne r1,=-1\n LTORG\nliteral_ DCD 1\n",
        b" MOV R0,#5 ;  LDR R0,=5\n mvnne r1,#0 ;  ldrne r1,=-1\n ;  LTORG\nliteral_ DCD 1\n",
    ),
    (
        b"t LDR R0,=&12345\n LDRLO r2,=74565\n LDR PC,=h\nh LTORG\n LDR R1,=&12345\n END\n x\n",
        b"t LDR R0,literal_1 ; t LDR R0,=&12345\n LDRCC r2,literal_1 ;  LDRLO r2,=74565\n \
          LDR PC,literal_3 ;  LDR PC,=h\nh ; h LTORG\nliteral_1 DCD 74565\nliteral_3 DCD h\n \
          LDR R1,literal_5 ;  LDR R1,=&12345\n ;  END\nliteral_5 DCD 74565\n ;  x\n",
    ),
    (
        b"n EQU &FF\nr RN 3\n LDR r,=n<<4\n LDR r , = n+&100\n END\n",
        b" ; n EQU &FF\n ; r RN 3\n MOV R3,#4080 ;  LDR r,=n<<4\n \
          LDR R3 ,literal_4 ;  LDR r , = n+&100\n ;  END\nliteral_4 DCD 511\n",
    ),
    (
        b" [ 1=2\n LDR R0,=&12345\n LTORG\n ]\n",
        b" ;  [ 1=2\n ;  LDR R0,=&12345\n ;  LTORG\n ;  ]\n",
    ),
    (b"", b""),
];

// Texts that are refused.
const REFUSED: [(&[u8], LineFault, usize); 54] = [
    (b"\n NOP R0\n", LineFault::BadOperand, 2),
    (b" MOV R0,#1\n ALIGN\n", LineFault::UnknownDirective, 2),
    (b" = 1,2\n", LineFault::UnknownDirective, 1),
    (b"a EQU 1\na * 2\n", LineFault::NameTwice, 2),
    (b"a EQU b\nb EQU c\nc EQU 1\n", LineFault::NameMissing, 1),
    (b"b EQU 1\na EQU a+b\n", LineFault::NameMissing, 2),
    (b"a EQU b\nb EQU a\n", LineFault::NameMissing, 1),
    (b"a EQU b\na EQU 1\nb EQU 2\n", LineFault::NameTwice, 2),
    (b"a RN b\nb EQU 16\n", LineFault::BadRegister, 1),
    (b" MOV R0,#1=1\n", LineFault::NotANumber, 1),
    (b" ASSERT 4\n", LineFault::NotLogical, 1),
    (b"n EQU 4\n ASSERT n/=4\n", LineFault::AssertionFailed, 2),
    (b" ASSERT n=4\n", LineFault::NameMissing, 1),
    (b"END\n IMPORT x\n", LineFault::UnknownDirective, 2),
    (b" MOV R0,#1+(1=1)\n", LineFault::NoValue, 1),
    (b" MOV R0,#1:LAND:2\n", LineFault::NoValue, 1),
    (b" MOV R0,#1< \n", LineFault::BadExpression, 1),
    (b" MOV R0,#1< >2\n", LineFault::BadExpression, 1),
    (b"R5 RN 6\n", LineFault::BadName, 1),
    (b"f RN 16\n", LineFault::BadRegister, 1),
    (b" MOV R0,#1/0\n", LineFault::NoValue, 1),
    (b" MOV R0,#-8/2\n", LineFault::NoValue, 1),
    (b"\n MOV R0,#1:SHL:32\n", LineFault::NoValue, 2),
    (b" MOV R0,#4294967296\n", LineFault::BadNumber, 1),
    (b" MOV R0,#2_12\n", LineFault::BadNumber, 1),
    (b" MOV R0,#(1\n", LineFault::BadExpression, 1),
    (b"a EQU 1\na MOV R0,R1\n", LineFault::NameTwice, 2),
    (b" ^ 0,w\nw RN 12\n", LineFault::BadRegister, 1),
    (b" ^ 0,\n", LineFault::BadRegister, 1),
    (b" ^ n\nn EQU 4\n", LineFault::NameMissing, 1),
    (b"a # 4\na EQU 1\n", LineFault::NameTwice, 2),
    (b"1a # 4\n", LineFault::BadName, 1),
    (b" ^ 0,R1\na # 4\n MOV R0,#a\n", LineFault::NotANumber, 3),
    (b" ^ 0!\n", LineFault::BadExpression, 1),
    (b"\n ]\n", LineFault::ConditionMissing, 2),
    (b" ELSE\n ENDIF\n", LineFault::ConditionMissing, 1),
    (b" [ 1=1\n |\n |\n ]\n", LineFault::ElseTwice, 3),
    (b"\n [ 1=1\n [ 2=2\n ]\n", LineFault::ConditionOpen, 2),
    (b" [ 1=1\n |\n [\n", LineFault::ConditionOpen, 3),
    (b" [ 1=1\n END\n ]\n", LineFault::ConditionOpen, 1),
    (b" [ n=1\nn EQU 1\n ]\n", LineFault::NameMissing, 1),
    (
        b" [ 1=2\nn EQU 1\n ]\n DCD n+1\n",
        LineFault::NameMissing,
        4,
    ),
    (b" IF 4\n ENDIF\n", LineFault::NotLogical, 1),
    (b" [ 1=1\n ] x\n", LineFault::BadOperand, 2),
    (b" [ 1=2\n ELIF 1=1\n ]\n", LineFault::UnknownDirective, 2),
    (
        b"\n LDR R0,=&12345\n LDR R1,=&54321\n",
        LineFault::PoolMissing,
        2,
    ),
    (b" LDR R0,=1\n LTORG x\n", LineFault::BadOperand, 2),
    (b"literal_1 DCD 0\n", LineFault::BadName, 1),
    (b" MOV R0,#literal_2x\n", LineFault::BadName, 1),
    (b" LDR R0,=R1\n END\n", LineFault::NameMissing, 1),
    (b" LDR R0,=1,2\n", LineFault::BadExpression, 1),
    (b" LDR R0,=\n", LineFault::BadExpression, 1),
    (b" ^ 0,R1\na # 4\n LDR R0,=a\n", LineFault::NotANumber, 3),
    (b" [ 1=2\nl [ 1=1\n ]\n ]\n", LineFault::UnknownDirective, 2),
];

#[test]
fn texts_are_translated(rt: HostRuntime) {
    for (source, wanted) in TEXTS {
        match plain_source(rt.alloc(), source) {
            Ok(plain) => {
                assert!(rt; plain.text.as_slice() == wanted);
            }
            Err(_) => {
                assert!(rt; false);
            }
        }
    }
}

#[test]
fn texts_are_refused(rt: HostRuntime) {
    for (source, wanted, line) in REFUSED {
        match plain_source(rt.alloc(), source) {
            Ok(_) => {
                assert!(rt; false);
            }
            Err(fault) => {
                assert!(rt; fault == DialectFault::Line(wanted, line));
            }
        }
    }
}
