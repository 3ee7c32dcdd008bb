// Card K and the table of what paper 01 marks P1 to P12. It has no function: what is proved here is said of the definition.
#![tactic(auto)]
